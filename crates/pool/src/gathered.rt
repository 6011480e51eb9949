//! What a run answers.
ghost use Rattle.std.specs.Prelude.{◌≡◌, ◌<◌, ◌≤◌, length};
ghost use Rattle.pool.specs.Gathered.{outcome_in};
ghost use Rattle.pool.specs.Settled.{IsWhole};

use board::Closed;
use edges::NodeId;
use std::marker::Model;

/// The outcome of every node of a graph: for those that are not cyclic the closed board, which has
/// a value for each, and the one outcome that all cyclic nodes have.
#[derive(Drop)]
pub struct Gathered<V> {
    closed: Closed<V>,
    cycle: V,
    acyclic: usize,
    nodes: usize,
}

impl<V> Model for Gathered<V> {
    ghost use Rattle.std.specs.Prelude.{◌≡◌, ◌≤◌, length};
    ghost use Rattle.pool.specs.Gathered.{GatheredView};
    ghost use Rattle.pool.specs.Settled.{IsWhole};

    ghost Value = { GatheredView V };

    ghost view = { λ g. record { nodes = g.nodes; closed = g.closed; cycle = g.cycle } };

    ghost invariant = { λ g. IsWhole g.closed × (length g.closed.known ≡ g.acyclic)
        × (g.acyclic ≤ g.nodes) };
}

impl<V> Gathered<V> {
    /// A closed board on which no node is left, for the first `acyclic` of so many nodes.
    pub(crate) fn of(closed: Closed<V>, cycle: V, acyclic: usize, nodes: usize) -> Gathered<V>
        requires whole { IsWhole closed }
        requires size { length closed.known ≡ acyclic }
        requires within { acyclic ≤ nodes }
        ensures { result ≡ record { nodes = nodes; closed = closed; cycle = cycle } }
    {
        Gathered {
            closed,
            cycle,
            acyclic,
            nodes,
        }
    }

    /// The outcome of the node.
    pub fn outcome(&self, n: NodeId) -> &V
        requires node { n < self.now.nodes }
        ensures value { result.now ≡ outcome_in self.now n }
    {
        if n.number() >= self.acyclic {
            return &self.cycle;
        }
        match self.closed.get(n.number()) {
            Some(value) => value,
            None => unreachable!(),
        }
    }

    /// The board at its end: each node that is not cyclic has a value, under its own number, none
    /// is left, and nobody set the halt.
    pub fn closed(&self) -> &Closed<V>
        ensures value { result.now ≡ self.now.closed }
        ensures whole { IsWhole result.now }
        ensures within { length result.now.known ≤ self.now.nodes }
    {
        &self.closed
    }
}
