// The hash of a key.
ghost use Rattle.std.specs.Prelude.{◌≡◌};
ghost use Rattle.cdb_form.specs.Format.{key_hash};

use cdb_form::hash;

/// The hash of a key.
#[unsafe(no_mangle)]
pub extern "C" fn cdb_c_hash(key: &[u8]) -> u32
    ensures { result ≡ key_hash key.now }
{
    hash(key)
}
