//! Nodes and the edges between them: who depends on whom, what is cyclic, and an order that
//! respects dependencies.
#![tactic(auto)]

mod adjacency;
mod countdown;
mod edges;
mod graph_test;
pub mod laws;
mod node;
mod numbering;
mod rooms;
mod users;

pub use adjacency::Adjacency;
pub use edges::{Edges, Numbered};
pub use node::NodeId;
