// The hash of a key, its table, and its slot there.
ghost use Rattle.std.specs.Prelude.{◌≡◌, ◌<◌, fold};
ghost use Rattle.cdb_form.specs.Format.{key_hash, hash_step, table_number, home_slot};

/// The hash of a key, of 32 bits, as Bernstein's cdb specification has it: from 5381, each byte
/// takes 33 times the hash so far, exclusive or the byte.
pub fn hash(key: &[u8]) -> u32
    ensures { result ≡ key_hash key.now }
{
    hash_more(5381, key)
}

/// Returns the hash of a key that goes on with `bytes`, if `hash` is its hash up to them. So a key
/// can be hashed piece by piece, beginning with `hash(&[])`.
pub fn hash_more(hash: u32, bytes: &[u8]) -> u32
    ensures { result ≡ fold hash_step hash bytes.now }
{
    let mut hash = hash;
    let (eights, rest) = bytes.as_chunks::<8>();
    for eight in eights {
        hash = hash_each(hash, eight);
    }
    hash_each(hash, rest)
}

/// The hash so far with each of these bytes. Inlined over eight of them it has no loop.
#[inline(always)]
fn hash_each(hash: u32, bytes: &[u8]) -> u32
    ensures { result ≡ fold hash_step hash bytes.now }
{
    let mut hash = hash;
    for byte in bytes {
        hash = (hash << 5).wrapping_add(hash) ^ u32::from(*byte);
    }
    hash
}

/// Returns the number of the table, from 0 to 255, that has the records of a hash.
pub fn table_number(hash: u64) -> usize
    ensures number { result ≡ table_number hash }
    ensures within { result < 256 }
{
    (hash % 256) as usize
}

/// Returns the slot at which the search for a hash begins in a table of `slots` slots.
pub fn home_slot(hash: u64, slots: u64) -> u64
    requires { 0 < slots }
    ensures slot { result ≡ home_slot hash slots }
    ensures within { result < slots }
{
    (hash / 256) % slots
}
