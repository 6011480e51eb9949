//! Outcomes that are texts.
use crate::analysers::Nesting;
use crate::runs::run_at;
use fakes::graphs::diamond;
use pool::{NoGate, NodeId, StealShelf, Workers};
use std::alloc::Global;
use std::sync::Wait;
use std::test::Fail;
use std::thread::Threads;

/// Whether the last node of the diamond has its text, by so many workers.
fn is_nested<R: Threads + Wait + Sync>(rt: &R, alloc: Global, workers: u64) -> Result<bool, Fail> {
    let Some(workers) = Workers::new(workers) else {
        return Ok(false);
    };
    let Some(graph) = diamond(alloc)? else {
        return Ok(false);
    };
    let graph = &graph.edges;
    let nodes = graph.nodes();
    if nodes != 4 {
        return Ok(false);
    }
    let nesting = Nesting { nodes };
    let ends = StealShelf::ends(alloc, workers, nodes)?;
    Ok(match run_at(rt, alloc, graph, &nesting, ends, &NoGate) {
        Some(Ok(gathered)) => gathered.outcome(NodeId::of(3)).as_bytes()
            == b"[[[]][[]]]".as_slice(),
        Some(Err(_)) | None => false,
    })
}

#[test]
fn texts_in_brackets(rt: HostRuntime) -> Result<(), Fail> {
    let alloc = rt.alloc();
    assert!(rt; is_nested(&rt, alloc, 1)? && is_nested(&rt, alloc, 8)?);
    Ok(())
}
