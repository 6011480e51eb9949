//! The graph of all targets and files that are reached from labels: its nodes are their labels, and
//! an edge leads from each to every label that it depends on.
//!
//! What a label depends on is told by any [`Dependencies`]. [`Graph::of`] finds the labels that are
//! reached, gives each a number, and puts them in an order in which each comes after all that it
//! depends on, with the cyclic ones behind.
#![tactic(auto)]

mod dependencies;
mod graph;
pub mod laws;
mod node;
mod numbers;
mod reached;
mod refused;

pub use dependencies::Dependencies;
pub use graph::Graph;
pub use refused::GraphRefused;
