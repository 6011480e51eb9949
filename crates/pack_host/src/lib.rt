//! What `bzlan_pack` has of the system: its folders, the words of the command line, the exit status
//! and the lines on standard error.
#![tactic(auto)]

mod endings;
mod host;
mod words;

pub use endings::{status, tell};
pub use host::HostFolder;
pub use words::{PackWords, read_pack_words};
