//! The board of a graph.
ghost use Rattle.std.specs.Prelude.{◌≡◌, ◌<◌, ◌≤◌, length, take, IfOk};
ghost use Rattle.std.specs.List.{All};
ghost use Rattle.board.specs.Views.{IsNew};

use board::{Board, NoMemory, Pass, Plan};
use edges::{Edges, NodeId};
use std::alloc::Global;

/// The nodes of a graph that are not cyclic, as the plan of a board.
#[derive(Drop)]
struct Acyclic<'g> {
    graph: &'g Edges,
    nodes: usize,
    ghost count: { nodes ≡ length (take graph.now.acyclic graph.now.deps) },
    ghost within: { graph.now.acyclic ≤ length graph.now.deps },
}

impl<'g> Plan for Acyclic<'g> {
    ghost use Rattle.std.specs.Prelude.{take};

    ghost lists = { λ a. take a.graph.now.acyclic a.graph.now.deps };

    fn nodes(&self) -> usize {
        self.nodes
    }

    fn dependencies(&self, n: usize) -> usize {
        self.graph.deps(NodeId::of(n)).len()
    }
}

/// A board for the nodes of the graph that are not cyclic, and so many passes of it.
///
/// # Errors
///
/// `NoMemory` where memory was refused.
pub fn open_board<V: Drop>(
    alloc: Global,
    graph: &Edges,
    passes: usize,
) -> Result<(Board<V>, Vec<Pass<V>>), NoMemory>
    requires some { 0 < passes }
    ensures plan { IfOk result (λ t. t.0.plan ≡ take graph.now.acyclic graph.now.deps) }
    ensures count { IfOk result (λ t. (t.0.passes ≡ passes) × (length t.1.items ≡ passes)) }
    ensures new { IfOk result (λ t. All (IsNew t.0) t.1.items) }
{
    let nodes = graph.acyclic();
    Board::over(alloc, &Acyclic { graph, nodes }, passes)
}
