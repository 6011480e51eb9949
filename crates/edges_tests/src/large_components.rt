//! A chain and a ring of many nodes: nothing recurses by their length.
use crate::component_graphs::found;
use edges::{Adjacency, NodeId};
use std::alloc::{AllocError, Global};
use std::test::Fail;

/// So many nodes, each of which depends on the one before it, and the first on `start`, if given.
fn chain(alloc: Global, nodes: u32, start: Option<usize>) -> Result<Adjacency, AllocError> {
    let mut rows = Adjacency::with_capacity(alloc, 0, 0)?;
    let mut list = Vec::new(alloc);
    for n in 0..nodes {
        list.clear();
        let before = if n == 0 {
            start
        } else {
            Some((n - 1) as usize)
        };
        if let Some(d) = before {
            list.push(NodeId::of(d))?;
        }
        rows.push(&list)?;
    }
    Ok(rows)
}

/// How many nodes of a chain are on a cycle: `None` where a dependency is no node.
fn on_cycles(alloc: Global, nodes: u32, start: Option<usize>) -> Result<Option<u32>, AllocError> {
    let Some(found) = found(alloc, chain(alloc, nodes, start)?)? else {
        return Ok(None);
    };
    let mut count = 0_u32;
    for n in 0..found.deps().len() {
        if found.on_cycle(NodeId::of(n)) {
            count = count.saturating_add(1);
        }
    }
    Ok(Some(count))
}

#[test]
fn a_long_chain_has_no_cycle(rt: HostRuntime) -> Result<(), Fail> {
    assert!(rt; on_cycles(rt.alloc(), 200_000, None)? == Some(0));
    Ok(())
}

#[test]
fn a_long_ring_is_one_cycle(rt: HostRuntime) -> Result<(), Fail> {
    assert!(rt; on_cycles(rt.alloc(), 200_000, Some(199_999))? == Some(200_000));
    Ok(())
}
