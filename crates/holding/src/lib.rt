//! What each operation of the language keeps of the depsets that an evaluation has seen: one tree
//! for an id.
//!
//! There is no code here: `specs/` says what holds of values and states at each point of an
//! evaluation, and what linked files and places owe for it; the contract of [`laws`] says that each
//! operation keeps it then.
#![tactic(auto)]

pub mod laws;
