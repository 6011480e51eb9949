//! What tests of several crates set in the place of the real thing.
#![tactic(auto)]

pub mod ends;
pub mod gates;
pub mod graphs;
pub mod tapes;
