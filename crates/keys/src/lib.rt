//! Keys of dicts, and texts that are kept as keys.
//!
//! A key is a string, a whole number or a bool (`key`). A text that is lent wherever it is read,
//! such as a string that a file writes out or the path of a File, is kept as the key that it is
//! (`text_key`): so reading it touches no count.
#![tactic(auto)]

mod key;
mod text_key;

pub use key::Key;
pub use text_key::TextKey;
