//! The strongly connected components of a graph: sets of nodes of which each leads to each other
//! along dependencies. They are found in time linear in nodes and edges, without recursion, so that
//! a chain or a cycle may be as long as memory holds.
#![tactic(auto)]

mod found;
mod search;

pub use found::{Components, is_inside};
