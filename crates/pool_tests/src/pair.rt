//! What a caller can say of a run: the text of the second of two nodes.
ghost use Rattle.std.specs.Prelude.{◌≡◌, [], ◌∷◌, length, IfOk, IfSome};
ghost use Rattle.pool.specs.Gathered.{outcome_in};
ghost use Rattle.pool_tests.specs.Examples.{bracketed};

use crate::analysers::{Nesting, Text};
use crate::runs::run_at;
use edges::Adjacency;
use pool::{Edges, Gathered, NoGate, NodeId, StealShelf, Workers};
use std::alloc::{AllocError, Global};
use std::sync::Wait;
use std::test::Fail;
use std::thread::Threads;

/// Node 0, and node 1 that depends on it.
fn two(alloc: Global) -> Result<Edges, AllocError>
    ensures { IfOk result (λ g. g.deps ≡ [] ∷ (0 ∷ []) ∷ []) }
{
    let mut rows = Adjacency::with_capacity(alloc, 2, 1)?;
    rows.push(&[])?;
    rows.push(&[NodeId::of(0)])?;
    Edges::in_order(alloc, rows)
}

/// The texts of both, by two workers. That of node 1 is known before they run.
fn texts<R: Threads + Wait + Sync>(rt: &R, alloc: Global, graph: &Edges) -> Option<Gathered<Text>>
    requires { graph.now.deps ≡ [] ∷ (0 ∷ []) ∷ [] }
    ensures nodes { IfSome result (λ g. g.nodes ≡ length graph.now.deps) }
    ensures text { IfSome result (λ g. outcome_in g 1 ≡ bracketed (bracketed [] ∷ [])) }
{
    let nodes = graph.nodes();
    let nesting = Nesting { nodes };
    let workers = Workers::new(2)?;
    let ends = StealShelf::ends(alloc, workers, nodes).ok()?;
    let ran = run_at(rt, alloc, graph, &nesting, ends, &NoGate)?;
    match ran {
        Ok(gathered) => Some(gathered),
        Err(_) => None,
    }
}

/// Whether the second of the two has its text.
fn is_second_nested<R: Threads + Wait + Sync>(rt: &R, alloc: Global) -> Result<bool, AllocError> {
    let graph = two(alloc)?;
    Ok(match texts(rt, alloc, &graph) {
        Some(gathered) => gathered.outcome(NodeId::of(1)).as_bytes() == b"[[]]".as_slice(),
        None => false,
    })
}

#[test]
fn the_text_of_the_second_of_two(rt: HostRuntime) -> Result<(), Fail> {
    assert!(rt; is_second_nested(&rt, rt.alloc())?);
    Ok(())
}
