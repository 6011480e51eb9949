//! A board in the hands of two threads: three layers of eight nodes, each node on all of the layer
//! before it.

use crate::graph::Graph;
use crate::threads::in_two;
use board::Board;
use std::alloc::{AllocError, Global};
use std::test::Fail;

const LAYER: usize = 8;

const NODES: usize = 24;

fn three_layers(alloc: Global) -> Result<Option<Graph>, AllocError> {
    let mut plan = Vec::new(alloc);
    let mut users = Vec::new(alloc);
    for node in 0..NODES {
        let layer = node / LAYER;
        let mut deps_of = Vec::new(alloc);
        let mut users_of = Vec::new(alloc);
        for other in 0..NODES {
            if other / LAYER + 1 == layer {
                deps_of.push(other)?;
            }
            if layer + 1 == other / LAYER {
                users_of.push(other)?;
            }
        }
        plan.push(deps_of)?;
        users.push(users_of)?;
    }
    Ok(Graph::of(plan, users))
}

#[test]
fn two_threads(rt: HostRuntime) -> Result<(), Fail> {
    let alloc = rt.alloc();
    let Some(graph) = three_layers(alloc)? else {
        panic!(rt; "no graph")
    };
    let nodes = graph.nodes();
    if nodes != NODES {
        panic!(rt; "{nodes} nodes");
    }
    let Ok((board, mut passes)) = Board::<u64>::new(alloc, graph.plan(), 2) else {
        panic!(rt; "no memory")
    };
    let b = board.take_pass(&mut passes).expect(&rt, "two passes");
    let a = board.take_pass(&mut passes).expect(&rt, "two passes");
    let ((mut a, by_a), (mut b, by_b)) = in_two(&rt, &board, &graph, a, b, nodes);
    let all_done = by_a.saturating_add(by_b) == NODES && board.left(&mut a) == 0;
    assert!(rt; all_done);
    board.meet(&mut a, &mut b);
    let last_is_read = board.read(&mut a, 23).copied() == Some(73)
        && board.read(&mut b, 23).copied() == Some(73);
    assert!(rt; last_is_read);
    passes.push(a)?;
    passes.push(b)?;
    let closed = board.close(passes);
    let ends_as_wanted = closed.left() == 0 && !closed.halted();
    assert!(rt; ends_as_wanted);
    assert!(rt; closed.get(23).copied() == Some(73));
    Ok(())
}
