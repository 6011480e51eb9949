//! One id, one tree: which depsets stand in values, cells, heaps and outcomes, when they are told
//! by their ids, and what keeps that so.
//!
//! There is no code here: `specs/` has the definitions, and the contracts of [`laws`] say what
//! holds of them. No call of another crate carries them.
#![tactic(auto)]

pub mod laws;
