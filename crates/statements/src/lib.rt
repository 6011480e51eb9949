//! The statements of a file: from its logical lines to its statements in their blocks, or to the
//! first line that has no place among them.
//!
//! The form of each line is read ([`line_forms`]). Then the lines are seen to stand where they may
//! ([`outline`]), and are put into their blocks ([`blocks`]). [`statement_pass`] joins these. The
//! definitions stand in crate `grammar`.
#![tactic(auto)]

mod blocks;
mod line_forms;
mod outline;
pub mod outline_laws;
mod statement_pass;

pub use statement_pass::read_file;
