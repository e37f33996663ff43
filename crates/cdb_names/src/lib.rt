//! Names of files: looks, locks and links, and a file that is replaced in one step or not at all,
//! whatever happens.
#![tactic(auto)]

mod answer;
mod locks;
mod looks;
mod name_fault;
mod name_trace;
mod names;
mod real_names;
mod refusal;
mod replace;
mod shown;
mod standard_input;
mod system_links;
mod unsynced;
mod wanted;

pub use answer::{Answer, Found, Lock};
pub use locks::locked;
pub use looks::has_name;
pub use name_fault::NameFault;
pub use name_trace::{NameCall, NameTrace};
pub use names::{Names, Unrenamed};
pub use real_names::RealNames;
pub use refusal::{Cause, Newest, Refusal};
pub use replace::{Builder, ReplaceFault, is_no_name, replace_file};
pub use shown::Shown;
pub use unsynced::Unsynced;
pub use wanted::Wanted;
