// A store as its users see it: the trait, its facts for proofs, and its faults.
ghost use Rattle.std.specs.Prelude.{◌≡◌, ℕ, ◌+◌, ◌<◌, ◌≤◌, ◌^◌, max, List, length, OnOk, OnErr, ◌++◌, IsErrOf};
ghost use Rattle.cdb_store.specs.declared.store.StoreFault.TheVariants.{Device, NoMemory};
ghost use Rattle.cdb_store.specs.Images.{SameImages, AfterRead, AfterWrite, AfterTornWrite, AfterCut, HasCause, fault_number, fault_message};

use crate::bytes::join;
use std::alloc::{AllocError, AllocFailed};
use std::error::Error;
use std::fmt::{self, Display, Formatter, Write};

/// Pieces of at most this length in all, such as a short record, are written as one.
const JOINED: usize = 256;

/// The reason why a call on a store failed.
#[derive(Clone, Copy, Debug, PartialEq, Eq)]
pub enum StoreFault {
    /// The medium that holds the bytes failed: a full disk, for example.
    Device,
    /// An allocation failed, and nothing has changed.
    NoMemory,
}

impl StoreFault {
    /// Returns the number that a program reports for the fault: 1 for `Device`, 2 for `NoMemory`.
    pub fn number(&self) -> u8
        ensures { result ≡ fault_number self.now }
    {
        match self {
            StoreFault::Device => 1,
            StoreFault::NoMemory => 2,
        }
    }

    /// Returns the words that a program shows a person for the fault. `Display` writes them.
    pub fn message(&self) -> &'static str
        ensures { result.now ≡ fault_message self.now }
    {
        match self {
            StoreFault::Device => "the device failed",
            StoreFault::NoMemory => "no memory",
        }
    }
}

impl Display for StoreFault {
    ghost use Rattle.std.specs.Prelude.{Some};

    ghost output = { λ f. Some (fault_message f) };

    fn fmt<W: Write>(&self, f: &mut Formatter<W>) -> fmt::Result {
        f.write_str(self.message())
    }
}

impl Error for StoreFault {}

impl From<AllocError> for StoreFault {
    ghost from_gives = { λ _ e. e ≡ NoMemory };

    fn from(_: AllocError) -> Self {
        StoreFault::NoMemory
    }
}

impl<T: Drop> From<AllocFailed<T>> for StoreFault {
    ghost from_gives = { λ _ e. e ≡ NoMemory };

    /// Drops the value that was not stored.
    fn from(_: AllocFailed<T>) -> Self {
        StoreFault::NoMemory
    }
}

/// Bytes at positions, counted from 0, that are read, written and cut.
///
/// A contract speaks of a store by six facts. Its *images* are the byte lists of its length that
/// agree with all its writes and with all bytes it gave back: a store in memory has exactly one,
/// and an opened file has every list of its length until it is read. Its *failures* and *bytes
/// written* are counts without a bound. Its *unwritten* count rises with each write that fails, so
/// a caller that only read cannot report a failed write. Its *room* is the position up to which
/// writes take no memory. It is *settled* if all bytes written to it were forwarded to the medium
/// that holds them.
//
// The order of each method's clauses means nothing to a caller. In this order the checker passes
// the bound `S: Store` through a call in a seventh of the steps.
pub trait Store {
    /// The store's length in bytes.
    ghost size: { Self → ℕ };

    /// The byte lists that agree with all the store's writes and with all bytes it gave back.
    ghost image: { Self → List ℕ → Type 0 };

    /// The number of the store's failures so far.
    ghost failures: { Self → ℕ };

    /// A count that rises if a write, a cut or a flush fails. It may rise elsewhere too.
    ghost unwritten: { Self → ℕ };

    /// The number of bytes written so far. A write that returned `Ok` counts with its length, and
    /// one that failed with at most its length.
    ghost written: { Self → ℕ };

    /// Writes that end at or before this position take no memory.
    ghost room: { Self → ℕ };

    /// All bytes written to the store were forwarded to the medium that holds them.
    ghost settled: { Self → Type 0 };

    /// Returns the store's length in bytes.
    fn len(&self) -> u64
        ensures { result ≡ size self.now };

    /// Fills `into` with the bytes that start at `pos`. They all must lie inside the store.
    ///
    /// After `Device` no byte of the store has changed, and `into` may hold anything.
    fn read_at(&mut self, pos: u64, into: &mut [u8]) -> Result<(), StoreFault>
        requires { pos + length into.old ≤ size self.old }
        ensures room { room self.old ≤ room self.new }
        ensures size { size self.new ≡ size self.old }
        ensures unwritten { unwritten self.old ≤ unwritten self.new }
        ensures ok_failures { OnOk result (failures self.new ≡ failures self.old) }
        ensures ok { OnOk result (AfterRead pos into.new (image self.old) (image self.new)) }
        ensures cause { HasCause (failures self.old) (failures self.new) result }
        ensures written { written self.new ≡ written self.old }
        ensures err { OnErr result (SameImages (image self.old) (image self.new)) }
        ensures memory { IsErrOf result NoMemory → ⊥ };

    /// Writes the bytes at `pos`, over the bytes that are there and past the end. `pos` is at most
    /// the store's length.
    ///
    /// After `Device` the range may hold any bytes and the store may have grown by a part of it,
    /// but the bytes outside of the range stay. `NoMemory` comes only if the write ends past the
    /// room, and nothing has changed then.
    fn write_at(&mut self, pos: u64, bytes: &[u8]) -> Result<(), StoreFault>
        requires start { pos ≤ size self.old }
        requires end { pos + length bytes.now < 2 ^ 63 }
        ensures room { room self.old ≤ room self.new }
        ensures memory_failures { IsErrOf result NoMemory → failures self.new ≡ failures self.old }
        ensures at_most_written { written self.new ≤ written self.old + length bytes.now }
        ensures unwritten { HasCause (unwritten self.old) (unwritten self.new) result }
        ensures more_written { written self.old ≤ written self.new }
        ensures ok { OnOk result (AfterWrite pos bytes.now (image self.old) (image self.new)) }
        ensures memory { IsErrOf result NoMemory → SameImages (image self.old) (image self.new) }
        ensures torn { AfterTornWrite pos (length bytes.now) (image self.old) (image self.new) }
        ensures memory_size { IsErrOf result NoMemory → size self.new ≡ size self.old }
        ensures longer { size self.old ≤ size self.new }
        ensures memory_written { IsErrOf result NoMemory → written self.new ≡ written self.old }
        ensures memory_room { IsErrOf result NoMemory → room self.new ≡ room self.old }
        ensures ok_failures { OnOk result (failures self.new ≡ failures self.old) }
        ensures past_room { IsErrOf result NoMemory → room self.old < pos + length bytes.now }
        ensures not_past { size self.new ≤ max (size self.old) (pos + length bytes.now) }
        ensures cause { HasCause (failures self.old) (failures self.new) result }
        ensures ok_written { OnOk result (written self.new ≡ written self.old + length bytes.now) }
        ensures ok_size { OnOk result
            (size self.new ≡ max (size self.old) (pos + length bytes.now)) };

    /// Writes three pieces one after another at `pos`, as `write_at` writes them in one.
    ///
    /// By default a store writes pieces of up to 256 bytes in all by one `write_at`. For longer
    /// ones it makes room for all three, and writes each by itself.
    fn write_parts(
        &mut self,
        pos: u64,
        first: &[u8],
        second: &[u8],
        third: &[u8],
    ) -> Result<(), StoreFault>
        requires start { pos ≤ size self.old }
        requires end { pos + length (first.now ++ (second.now ++ third.now)) < 2 ^ 63 }
        ensures room { room self.old ≤ room self.new }
        ensures memory_failures { IsErrOf result NoMemory → failures self.new ≡ failures self.old }
        ensures at_most_written { written self.new
            ≤ written self.old + length (first.now ++ (second.now ++ third.now)) }
        ensures unwritten { HasCause (unwritten self.old) (unwritten self.new) result }
        ensures more_written { written self.old ≤ written self.new }
        ensures ok { OnOk result (AfterWrite pos (first.now ++ (second.now ++ third.now))
            (image self.old) (image self.new)) }
        ensures memory { IsErrOf result NoMemory → SameImages (image self.old) (image self.new) }
        ensures torn { AfterTornWrite pos (length (first.now ++ (second.now ++ third.now)))
            (image self.old) (image self.new) }
        ensures memory_size { IsErrOf result NoMemory → size self.new ≡ size self.old }
        ensures longer { size self.old ≤ size self.new }
        ensures memory_written { IsErrOf result NoMemory → written self.new ≡ written self.old }
        ensures memory_room { IsErrOf result NoMemory → room self.new ≡ room self.old }
        ensures ok_failures { OnOk result (failures self.new ≡ failures self.old) }
        ensures past_room { IsErrOf result NoMemory
            → room self.old < pos + length (first.now ++ (second.now ++ third.now)) }
        ensures not_past { size self.new
            ≤ max (size self.old) (pos + length (first.now ++ (second.now ++ third.now))) }
        ensures cause { HasCause (failures self.old) (failures self.new) result }
        ensures ok_written { OnOk result (written self.new
            ≡ written self.old + length (first.now ++ (second.now ++ third.now))) }
        ensures ok_size { OnOk result (size self.new
            ≡ max (size self.old) (pos + length (first.now ++ (second.now ++ third.now)))) }
    {
        let n = first.len() + second.len() + third.len();
        if n <= JOINED {
            let mut joined = [0; JOINED];
            join(first, second, third, &mut joined[..n]);
            return self.write_at(pos, &joined[..n]);
        }
        let second_pos = pos + first.len() as u64;
        let third_pos = second_pos + second.len() as u64;
        self.reserve(third_pos + third.len() as u64)?;
        self.write_at(pos, first)?;
        self.write_at(second_pos, second)?;
        self.write_at(third_pos, third)
    }

    /// Makes room, so that no write that ends at or before `len` takes memory.
    ///
    /// `NoMemory` is the only fault, comes only if `len` is past the room, and leaves the room.
    fn reserve(&mut self, len: u64) -> Result<(), StoreFault>
        requires { len < 2 ^ 63 }
        ensures past_room { OnErr result (room self.old < len) }
        ensures written { written self.new ≡ written self.old }
        ensures device { IsErrOf result Device → ⊥ }
        ensures room { room self.old ≤ room self.new }
        ensures ok { OnOk result (len ≤ room self.new) }
        ensures ok_failures { OnOk result (failures self.new ≡ failures self.old) }
        ensures failures { failures self.old ≤ failures self.new }
        ensures unwritten { unwritten self.old ≤ unwritten self.new }
        ensures images { SameImages (image self.old) (image self.new) }
        ensures err_failures { OnErr result (failures self.new ≡ failures self.old) }
        ensures size { size self.new ≡ size self.old }
        ensures err_room { OnErr result (room self.new ≡ room self.old) };

    /// Cuts the store to the length `len`, which is at most its own.
    ///
    /// After `Device` its length is any from `len` to the old one, and the bytes below that stay.
    fn cut(&mut self, len: u64) -> Result<(), StoreFault>
        requires { len ≤ size self.old }
        ensures ok_failures { OnOk result (failures self.new ≡ failures self.old) }
        ensures unwritten { HasCause (unwritten self.old) (unwritten self.new) result }
        ensures written { written self.new ≡ written self.old }
        ensures room { room self.old ≤ room self.new }
        ensures ok { OnOk result (size self.new ≡ len) }
        ensures no_longer { size self.new ≤ size self.old }
        ensures cause { HasCause (failures self.old) (failures self.new) result }
        ensures no_shorter { len ≤ size self.new }
        ensures images { AfterCut (size self.new) (image self.old) (image self.new) }
        ensures memory { IsErrOf result NoMemory → ⊥ };

    /// Forwards all bytes to the medium that holds them. After `Device` no byte has changed.
    fn flush(&mut self) -> Result<(), StoreFault>
        ensures room { room self.old ≤ room self.new }
        ensures size { size self.new ≡ size self.old }
        ensures unwritten { HasCause (unwritten self.old) (unwritten self.new) result }
        ensures ok_failures { OnOk result (failures self.new ≡ failures self.old) }
        ensures ok { OnOk result (settled self.new) }
        ensures cause { HasCause (failures self.old) (failures self.new) result }
        ensures written { written self.new ≡ written self.old }
        ensures images { SameImages (image self.old) (image self.new) }
        ensures memory { IsErrOf result NoMemory → ⊥ };

    /// The store's length is within its room.
    ghost in_room: { (s : Self) → size s ≤ room s };

    /// Each image has the store's length.
    ghost image_size: { (s : Self) (b : List ℕ) → image s b → length b ≡ size s };
}
