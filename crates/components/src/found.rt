//! The components of a graph, by number.
ghost use Rattle.std.specs.Prelude.{◌≡◌, ◌↔◌, ◌<◌, length, slice_index, IfOk, IsTrue};
ghost use Rattle.edges.specs.Rows.{row};
ghost use Rattle.edges.specs.Walks.{OnCycle};
ghost use Rattle.components.specs.Components.{IsRowInside, AreInside, AreComponents, IsFound};

use crate::search::Search;
use edges::{Adjacency, NodeId};
use std::alloc::{AllocError, Global};
use std::marker::Model;

/// A graph with the component of each node, by number. Two nodes have one number where each leads
/// to the other, and no dependency of a node has a greater number than the node.
#[derive(Drop)]
pub struct Components {
    deps: Adjacency,
    numbers: Vec<usize>,
}

impl Model for Components {
    ghost use Rattle.components.specs.Components.{Found, IsFound};

    ghost Value = { Found };

    ghost view = { λ c. record { deps = c.deps; numbers = c.numbers.items } };

    ghost invariant = { λ c. IsFound (record { deps = c.deps; numbers = c.numbers.items }) };
}

/// The numbers of the nodes' components.
fn numbers_of(alloc: Global, deps: &Adjacency) -> Result<Vec<usize>, AllocError>
    requires inside { AreInside deps.now }
    ensures { IfOk result (λ v. AreComponents deps.now v.items) }
{
    let mut search = Search::new(alloc, deps.len())?;
    for n in 0..deps.len() {
        search.visit(deps, NodeId::of(n))?;
    }
    search.numbers(alloc)
}

impl Components {
    /// The components of a graph, given the dependencies of each node. It takes time linear in
    /// nodes and dependencies, and some 60 bytes a node and 8 a dependency while it runs.
    ///
    /// # Errors
    ///
    /// `AllocError` where memory was refused.
    pub fn of(alloc: Global, deps: Adjacency) -> Result<Components, AllocError>
        requires inside { AreInside deps }
        ensures graph { IfOk result (λ c. c.deps ≡ deps) }
        ensures components { IfOk result IsFound }
    {
        let numbers = numbers_of(alloc, &deps)?;
        Ok(Components { deps, numbers })
    }

    /// The graph.
    pub fn deps(&self) -> &Adjacency
        ensures { result.now ≡ self.now.deps }
    {
        &self.deps
    }

    /// The numbers of all nodes' components.
    pub fn numbers(&self) -> &[usize]
        ensures number { result.now ≡ self.now.numbers }
        ensures components { IsFound self.now }
    {
        &self.numbers
    }

    /// The number of a node's component.
    pub fn number(&self, n: NodeId) -> usize
        requires node { n < length self.now.deps }
        ensures number { result ≡ slice_index self.now.numbers n }
        ensures components { IsFound self.now }
    {
        self.numbers[n.number()]
    }

    /// Whether a node lies on a cycle: some dependency of it leads back to it.
    pub fn on_cycle(&self, n: NodeId) -> bool
        requires node { n < length self.now.deps }
        ensures { IsTrue result ↔ OnCycle (row self.now.deps) n }
    {
        let own = self.number(n);
        for d in self.deps().row(n) {
            if self.number(*d) == own {
                return true;
            }
        }
        false
    }
}

/// Whether a row has nodes alone.
fn is_row_inside(list: &[NodeId], nodes: usize) -> bool
    ensures { IsTrue result ↔ IsRowInside list.now nodes }
{
    for d in list {
        if d.number() >= nodes {
            return false;
        }
    }
    true
}

/// Whether every dependency is a node, as [`Components::of`] asks.
pub fn is_inside(deps: &Adjacency) -> bool
    ensures { IsTrue result ↔ AreInside deps.now }
{
    for n in 0..deps.len() {
        if !is_row_inside(deps.row(NodeId::of(n)), deps.len()) {
            return false;
        }
    }
    true
}
