//! A chain of many nodes: nothing recurses by its length.
use edges::{Adjacency, NodeId, Numbered};
use fakes::graphs::graph_of;
use std::alloc::{AllocError, Global};
use std::test::Fail;

/// So many nodes, each of which depends on the one before it, and the first on `start`, if given.
fn chain(alloc: Global, nodes: u32, start: Option<usize>) -> Result<Option<Numbered>, AllocError> {
    let mut rows = Adjacency::with_capacity(alloc, 0, 0)?;
    let mut list = Vec::new(alloc);
    for n in 0..nodes {
        list.clear();
        let before = if n == 0 {
            start
        } else {
            Some((n - 1) as usize)
        };
        if let Some(d) = before {
            list.push(NodeId::of(d))?;
        }
        rows.push(&list)?;
    }
    graph_of(alloc, rows)
}

#[test]
fn a_long_chain_stands_in_order(rt: HostRuntime) -> Result<(), Fail> {
    let alloc = rt.alloc();
    let Some(graph) = chain(alloc, 100_000, None)? else {
        panic!(rt; "no graph")
    };
    assert!(rt; graph.edges.acyclic() == 100_000);
    assert!(rt; graph.edges.ready().len() == 1);
    for (n, name) in graph.origin.iter().enumerate() {
        assert!(rt; name.number() == n);
    }
    Ok(())
}

#[test]
fn a_long_ring_is_cyclic(rt: HostRuntime) -> Result<(), Fail> {
    let alloc = rt.alloc();
    let Some(graph) = chain(alloc, 100_000, Some(99_999))? else {
        panic!(rt; "no graph")
    };
    assert!(rt; graph.edges.nodes() == 100_000);
    assert!(rt; graph.edges.acyclic() == 0);
    assert!(rt; graph.edges.ready().is_empty());
    Ok(())
}
