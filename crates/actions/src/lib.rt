//! Actions of targets, as plain data: what each makes, from what, and the words of its command
//! (`action`).
//!
//! `specs/Ascending` says of texts that they are in the order of their bytes.
#![tactic(auto)]

mod action;

pub use action::{Action, Files, Inputs, Words};
