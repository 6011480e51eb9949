//! The operations of the language by plain listings: where an id has one tree, an evaluation does
//! the same.
//!
//! The code lists a depset and skips each id that it has seen, and so says `language`. There is no
//! code here: `specs/` defines the operations anew where a depset is listed, by the walk of its
//! whole tree, and the contract of [`laws`] says that each operation, each call and each top level
//! does the same.
#![tactic(auto)]

pub mod laws;
