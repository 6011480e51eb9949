//! Coherence of depsets: one id, one tree, over all outcomes of a graph.
//!
//! The definitions stand in `specs/`: `Coherent` says when depsets that are seen together are one
//! tree for an id, and `Together` what a graph of nodes owes for all its outcomes to be so.
//! [`laws`] says what they mean.
#![tactic(auto)]

pub mod laws;
