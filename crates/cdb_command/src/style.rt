// How the text of a file is formed.

/// How a text says its records.
#[derive(Clone, Copy, Debug, PartialEq, Eq)]
pub enum Style {
    /// `+klen,vlen:key->value` and a newline for each record, `+klen:key` for each key alone, and
    /// one more newline at the end.
    Native,
    /// The key, a space, the value and a newline for each record, the key and a newline for each
    /// key alone, and nothing at the end.
    Map,
}
