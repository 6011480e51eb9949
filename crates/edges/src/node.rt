//! The number of a node.
ghost use Rattle.std.specs.Prelude.{◌≡◌};

use std::marker::Model;

/// A node of a graph, by its number from 0.
#[derive(Clone, Copy, Debug, PartialEq, Eq, PartialOrd, Ord)]
pub struct NodeId {
    number: usize,
}

impl Model for NodeId {
    ghost use Rattle.std.specs.Prelude.{ℕ};

    ghost Value = { ℕ };

    ghost view = { λ n. n.number };

    ghost inverse = { λ k. record { number = k } };
}

impl NodeId {
    /// The node with this number.
    pub fn of(number: usize) -> NodeId
        ensures { result ≡ number }
    {
        NodeId { number }
    }

    /// The node's number.
    pub fn number(self) -> usize
        ensures { result ≡ self }
    {
        self.number
    }
}
