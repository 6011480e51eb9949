//! The texts of what has no parts: keys, leaves, and the elements of depsets.
//!
//! Each function appends to a `String` what a definition of `specs/Texts` says. Strings are written
//! between quotes (`quoting`). A depset is printed by its listing, whose walk skips what it has
//! seen; of a coherent value that is the text of the plain meaning.
#![tactic(auto)]

mod quoting;
mod texts;

pub use quoting::put_quoted;
pub use texts::{end_of_tuple, put_field_head, put_key, put_leaf, put_provider, put_separator};
