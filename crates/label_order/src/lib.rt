//! The nodes of a graph of labels, in the order in which a report tells of them.
//!
//! Nodes are numbered as they are found and analysed as workers come to them. A report tells of
//! them by the texts of their labels ([`by_label`]), so that neither order shows.
#![tactic(auto)]

mod order;

pub use order::{Entry, by_label};
