//! Look-ups in constant databases: what the readers are to find, and why one stops.
#![tactic(auto)]

mod ahead;
mod checking;
pub mod difference;
mod fault;
pub mod laws;
mod lookup;
pub mod memory;
mod pieces;
mod reader;
mod span;
mod statistics;
mod tables;
mod walking;
mod window;

pub use ahead::AT_HAND;
pub use checking::sound::check;
pub use fault::ReadFault;
pub use lookup::finder::Finder;
pub use lookup::key_at::Look;
pub use lookup::probe::{Probe, Searching, first_probe, lies_inside};
pub use lookup::search::{Met, Probed};
pub use reader::{Reader, Unread};
pub use span::{Pair, Span, has_bytes, spans};
pub use statistics::count::stats;
pub use statistics::stats::Stats;
pub use walking::bookmark::{Bookmark, walk_on};
pub use walking::records::Walk;
pub use walking::start::walk;
