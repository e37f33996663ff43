// Look-ups of keys.
pub(crate) mod bytes_at;
pub(crate) mod finder;
pub(crate) mod first_value;
pub(crate) mod key_at;
pub(crate) mod probe;
pub(crate) mod search;
