//! The files of a workspace, each read and compiled once.
//!
//! [`Sources`] has them in the order of their paths, by which they are numbered: the loads of each
//! or its syntax fault, the names of its top level, and the codes of all of them, linked. Trees are
//! let go as soon as a file is compiled.
#![tactic(auto)]

mod files;
mod kept;
mod labels;
mod loads;
mod read_all;
mod shares;
mod sources;

pub use labels::load_path;
pub use sources::Sources;
