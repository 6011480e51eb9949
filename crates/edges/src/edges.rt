//! A graph whose nodes are numbered in an order that respects dependencies.
ghost use Rattle.std.specs.Prelude.{◌≡◌, ◌↔◌, ◌<◌, length, IfOk, IsTrue};
ghost use Rattle.edges.specs.Walks.{Cyclic};
ghost use Rattle.edges.specs.Rows.{row, users_of, ready_of};
ghost use Rattle.edges.specs.Rows.{IsGraph, IsOrdered, IsRenumbered};

use crate::adjacency::Adjacency;
use crate::node::NodeId;
use crate::numbering::{order_of, places_of, replace_all};
use crate::users::users_of;
use std::alloc::{AllocError, Global};
use std::marker::Model;

/// Nodes by number from 0, with the dependencies and the users of each.
///
/// The nodes that are not cyclic come first, each after all that it depends on; the cyclic ones
/// stand behind them. An edge takes 16 bytes, 8 in either direction.
#[derive(Drop)]
pub struct Edges {
    deps: Adjacency,
    users: Adjacency,
    ready: Vec<NodeId>,
    acyclic: usize,
}

impl Model for Edges {
    ghost use Rattle.edges.specs.Edges.{EdgesView, IsEdges};

    ghost Value = { EdgesView };

    ghost view = { λ e. record { deps = e.deps; acyclic = e.acyclic } };

    ghost invariant = { λ e. IsEdges e.deps e.users e.ready.items e.acyclic };
}

/// A graph under new numbers, with the numbers that its nodes had.
#[derive(Drop)]
pub struct Numbered {
    /// The graph under its new numbers.
    pub edges: Edges,
    /// By new number, the number that each node had.
    pub origin: Vec<NodeId>,
}

/// The nodes that depend on none.
fn ready_of(alloc: Global, deps: &Adjacency) -> Result<Vec<NodeId>, AllocError>
    ensures { IfOk result (λ v. v.items ≡ ready_of deps.now) }
{
    let mut ready = Vec::new(alloc);
    for n in 0..deps.len() {
        let node = NodeId::of(n);
        if deps.row(node).is_empty() {
            ready.push(node)?;
        }
    }
    Ok(ready)
}

impl Edges {
    /// The graph in which each node depends on the nodes of its row, under new numbers: those of an
    /// order in which each node comes after its dependencies, with the cyclic nodes at its end. It
    /// takes time by the number of nodes and edges.
    ///
    /// # Errors
    ///
    /// `AllocError` where memory was refused.
    pub fn of(alloc: Global, given: Adjacency) -> Result<Numbered, AllocError>
        requires graph { IsGraph given }
        ensures same { IfOk result (λ r. IsRenumbered given r.origin.items r.edges.deps) }
    {
        let (origin, acyclic) = order_of(alloc, &given)?;
        let places = places_of(alloc, &origin)?;
        let deps = replace_all(alloc, &given, &origin, &places)?;
        drop(given);
        drop(places);
        let edges = Edges::with_users(alloc, deps, acyclic)?;
        Ok(Numbered { edges, origin })
    }

    /// The graph in which each node depends on the nodes of its row, which stand before it already:
    /// the nodes keep their numbers, and none is cyclic.
    ///
    /// # Errors
    ///
    /// `AllocError` where memory was refused.
    pub fn in_order(alloc: Global, deps: Adjacency) -> Result<Edges, AllocError>
        requires graph { IsGraph deps }
        requires order { IsOrdered deps (length deps) }
        ensures deps { IfOk result (λ e. e.deps ≡ deps) }
        ensures acyclic { IfOk result (λ e. e.acyclic ≡ length deps) }
    {
        let nodes = deps.len();
        Edges::with_users(alloc, deps, nodes)
    }

    /// The graph of these rows, of which so many come first and are not cyclic, with its users.
    fn with_users(alloc: Global, deps: Adjacency, acyclic: usize) -> Result<Edges, AllocError>
        requires graph { IsGraph deps }
        requires order { IsOrdered deps acyclic }
        ensures deps { IfOk result (λ e. e.deps ≡ deps) }
        ensures acyclic { IfOk result (λ e. e.acyclic ≡ acyclic) }
    {
        let users = users_of(alloc, &deps)?;
        let ready = ready_of(alloc, &deps)?;
        Ok(Edges {
            deps,
            users,
            ready,
            acyclic,
        })
    }

    /// How many nodes there are.
    pub fn nodes(&self) -> usize
        ensures { result ≡ length self.now.deps }
    {
        self.deps.len()
    }

    /// How many nodes are not cyclic. They come first, and the number of each is its rank: all that
    /// it depends on has lesser numbers.
    pub fn acyclic(&self) -> usize
        ensures value { result ≡ self.now.acyclic }
        ensures order { IsOrdered self.now.deps self.now.acyclic }
        ensures graph { IsGraph self.now.deps }
    {
        self.acyclic
    }

    /// The nodes on which `n` depends, each once, in the order in which they were given.
    pub fn deps(&self, n: NodeId) -> &[NodeId]
        requires node { n < length self.now.deps }
        ensures value { result.now ≡ row self.now.deps n }
        ensures order { IsOrdered self.now.deps self.now.acyclic }
    {
        self.deps.row(n)
    }

    /// The nodes that depend on `n`, each once and by number.
    pub fn users(&self, n: NodeId) -> &[NodeId]
        requires node { n < length self.now.deps }
        ensures { result.now ≡ users_of self.now.deps n }
    {
        self.users.row(n)
    }

    /// Whether a walk leads from `n` to a node that lies on a cycle.
    pub fn cyclic(&self, n: NodeId) -> bool
        requires node { n < length self.now.deps }
        ensures { IsTrue result ↔ Cyclic (row self.now.deps) n }
    {
        n.number() >= self.acyclic
    }

    /// The nodes that depend on none, by number. None of them is cyclic.
    pub fn ready(&self) -> &[NodeId]
        ensures { result.now ≡ ready_of self.now.deps }
    {
        &self.ready
    }
}
