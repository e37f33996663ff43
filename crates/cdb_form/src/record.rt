// A record in memory, of its own or where it lies.
ghost use Rattle.std.specs.Prelude.{◌≡◌, []};
ghost use Rattle.cdb_form.specs.Format.{AreBytes};

use std::alloc::Global;

/// A key with its value. Both are bytes of any content, and may be empty.
#[derive(Debug, Drop)]
pub struct Record {
    pub key: Vec<u8>,
    pub value: Vec<u8>,
    pub ghost key_bytes: { AreBytes key.items },
    pub ghost value_bytes: { AreBytes value.items },
}

/// A record that a reader has at hand, where it is.
#[derive(Clone, Copy)]
pub struct PeekedRecord<'a> {
    pub key: &'a [u8],
    pub value: &'a [u8],
    /// The number of the reader's bytes that spell the record.
    pub len: usize,
}

impl Record {
    /// A record of an empty key and an empty value. It takes no memory.
    pub fn empty(alloc: Global) -> Record
        ensures key { result.key.items ≡ [] }
        ensures value { result.value.items ≡ [] }
    {
        Record {
            key: Vec::new(alloc),
            value: Vec::new(alloc),
        }
    }
}
