//! What becomes of every label of a workspace, each target being analysed after its dependencies,
//! and that all these outcomes are coherent together.
//!
//! The definitions stand in `specs/`: `Found` says which depsets stand in an outcome, `Workspaces`
//! what a label comes to, over what each package declares and any meaning of implementations, and
//! `Laws` what holds of all of them together. [`laws`] says that it does. There is no code here.
#![tactic(auto)]

pub mod laws;
