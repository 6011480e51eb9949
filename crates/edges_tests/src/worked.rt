//! Worked examples: what is cyclic, where each node stands, and who uses whom.
use edges::{NodeId, Numbered};
use fakes::graphs::small;
use std::alloc::{AllocError, Global};
use std::test::Fail;

/// By the numbers that they had: the nodes that are not cyclic, in order, and then the cyclic ones.
fn standing(alloc: Global, graph: &Numbered) -> Result<(Vec<usize>, Vec<usize>), AllocError> {
    let mut first = Vec::new(alloc);
    let mut cyclic = Vec::new(alloc);
    for (n, name) in graph.origin.iter().enumerate() {
        if n >= graph.edges.nodes() {
            break;
        }
        if graph.edges.cyclic(NodeId::of(n)) {
            cyclic.push(name.number())?;
        } else {
            first.push(name.number())?;
        }
    }
    Ok((first, cyclic))
}

/// Whether the nodes of these rows stand so.
fn stand(
    alloc: Global,
    rows: &[&[usize]],
    first: &[usize],
    cyclic: &[usize],
) -> Result<bool, AllocError> {
    let Some(graph) = small(alloc, rows)? else {
        return Ok(false);
    };
    let (found, behind) = standing(alloc, &graph)?;
    Ok(found.as_slice() == first && behind.as_slice() == cyclic)
}

#[test]
fn a_pair_on_each_other_makes_its_users_cyclic(rt: HostRuntime) -> Result<(), Fail> {
    let alloc = rt.alloc();
    let rows: [&[usize]; 5] = [&[1], &[0], &[0, 4], &[2], &[]];
    assert!(rt; stand(alloc, &rows, &[4], &[0, 1, 2, 3])?);
    Ok(())
}

#[test]
fn rows_with_an_entry_twice_or_outside_are_no_graph(rt: HostRuntime) -> Result<(), Fail> {
    let alloc = rt.alloc();
    let twice: [&[usize]; 2] = [&[1], &[0, 1, 0]];
    let outside: [&[usize]; 2] = [&[1, 2], &[]];
    let same_in_two: [&[usize]; 2] = [&[1, 0], &[0, 1]];
    assert!(rt; small(alloc, &twice)?.is_none());
    assert!(rt; small(alloc, &outside)?.is_none());
    assert!(rt; small(alloc, &same_in_two)?.is_some());
    Ok(())
}

/// Whether the nodes have these numbers.
fn are(nodes: &[NodeId], want: &[usize]) -> bool {
    let mut same = nodes.len() == want.len();
    for (node, number) in nodes.iter().zip(want.iter()) {
        same = same && node.number() == *number;
    }
    same
}

#[test]
fn a_diamond_has_its_edges_both_ways(rt: HostRuntime) -> Result<(), Fail> {
    let alloc = rt.alloc();
    let rows: [&[usize]; 4] = [&[1, 2], &[3], &[3], &[]];
    let Some(graph) = small(alloc, &rows)? else {
        panic!(rt; "no graph")
    };
    let edges = &graph.edges;
    assert!(rt; edges.nodes() == 4 && edges.acyclic() == 4);
    assert!(rt; are(edges.ready(), &[0]));
    assert!(rt; are(edges.deps(NodeId::of(3)), &[1, 2]));
    assert!(rt; are(edges.users(NodeId::of(0)), &[1, 2]));
    assert!(rt; are(edges.users(NodeId::of(1)), &[3]));
    assert!(rt; edges.users(NodeId::of(3)).is_empty());
    Ok(())
}
