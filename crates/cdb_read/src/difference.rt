//! The difference of two databases, as an amending text.

mod differing_values;
mod guide;
mod in_step;
mod key_changes;
mod mark_hash;
mod marks;
mod pass;
mod records;
mod same;
mod stop;
mod write;

pub use key_changes::write_put;
pub use stop::Stop;
pub use write::write_difference;
