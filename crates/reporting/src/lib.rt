//! A report, and its lines: load faults, what becomes of each label, and conflicts.
//!
//! [`make_report`] writes all of it, in parts, by several threads; the `put_` functions append what
//! `specs/Lines` defines. A depset is written by the listing that skips each id that it has
//! seen; where an id has one tree, that is the text of the plain listing too.
#![tactic(auto)]

mod action_lines;
mod blocks;
mod conflict_lines;
mod fault_texts;
mod load_lines;
mod made;
mod node_lines;
mod outcome_lines;
mod provider_lines;
mod strings_in;

pub use conflict_lines::put_conflict;
pub use load_lines::put_load_fault;
pub use made::{Report, make_report};
pub use node_lines::Node;
pub use outcome_lines::put_outcome;
