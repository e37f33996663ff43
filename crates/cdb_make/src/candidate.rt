// A record that is to be added.
ghost use Rattle.cdb_form.specs.Format.{IsRecord, record_of};

/// A record that is to be added, and the numbers that looks will find it by.
#[derive(Clone, Copy)]
pub(crate) struct Candidate<'a> {
    /// The key of the record.
    pub(crate) key: &'a [u8],
    /// The value of the record.
    pub(crate) value: &'a [u8],
    /// All bytes of the record, as a file has them, or none if they are not at hand.
    pub(crate) bytes: &'a [u8],
    /// The hash of the record's key.
    pub(crate) hash: u32,
    /// The number that the roll notes if its records are tagged: the second hash of the record's
    /// key.
    pub(crate) number: u32,
    ghost is_record: { IsRecord (record_of key.now value.now) },
}
