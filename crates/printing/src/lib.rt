//! The texts of values: what `str` gives in the language, and what a report prints.
//!
//! `str` visits a value wherever it lies, with a tick for each value, and its text has a limit
//! (`reprs`). A report prints a frozen value without ticks and without a limit, a depset by its
//! whole listing (`tree_texts`). Both write strings, numbers and all else that has no parts by the
//! functions of `leaf_texts`.
//!
//! `specs/` says what each call gives.
#![tactic(auto)]

mod reprs;
mod tree_texts;

pub use reprs::{LARGEST_TEXT, repr};
pub use tree_texts::{put_tree, text};
