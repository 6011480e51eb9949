//! From a folder to an input of `bzlan`.
//!
//! A [`Folder`] is walked, and its files are written as one JSON array of pairs of a path and a
//! text ([`pack`]). What has no place in a workspace is left out and named ([`LeftOut`]).
#![tactic(auto)]

mod folders;
mod laws;
mod leaving;
mod walk;
mod whole;
mod writing;

pub use folders::{Folder, Kind, Names, Unread};
pub use laws::inputs_spell_their_workspace;
pub use leaving::{LeftOut, Reason};
pub use whole::{FileSize, PackStop, Packed, pack};
pub use writing::Counts;
