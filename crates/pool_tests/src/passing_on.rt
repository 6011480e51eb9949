//! Shelves and their ends.
ghost use Rattle.std.specs.Prelude.{◌≡◌, ◌<◌, IfOk, IfSome, vec_len};
ghost use Rattle.std.specs.List.{All};

use board::NoMemory;
use pool::{LockShelf, NodeId, Shelf, StealShelf, Workers};
use std::alloc::{AllocError, Global};
use std::sync::Wait;
use std::test::Fail;

/// So many ends of one queue, from 1 to 64, for a graph with so many nodes.
fn queue<R: Wait>(
    rt: &R,
    alloc: Global,
    workers: u64,
    nodes: usize,
) -> Option<Vec<LockShelf<'_, R>>>
    ensures some { IfSome result (λ v. 0 < vec_len v) }
    ensures nodes { IfSome result (λ v. All (λ e. e ≡ nodes) v.items) }
{
    let workers = Workers::new(workers)?;
    LockShelf::ends(rt, alloc, workers, nodes).ok()
}

/// So many deques, from 1 to 64, for a graph with so many nodes.
fn deques(alloc: Global, workers: u64, nodes: usize) -> Option<Vec<StealShelf>>
    ensures some { IfSome result (λ v. 0 < vec_len v) }
    ensures nodes { IfSome result (λ v. All (λ e. e ≡ nodes) v.items) }
{
    let workers = Workers::new(workers)?;
    StealShelf::ends(alloc, workers, nodes).ok()
}

/// One of the ends.
fn pop_end<S: Shelf>(ends: &mut Vec<S>, nodes: usize) -> Option<S>
    requires { All (λ e. S.nodes e ≡ nodes) ends.old.items }
    ensures rest { All (λ e. S.nodes e ≡ nodes) ends.new.items }
    ensures some { IfSome result (λ e. S.nodes e ≡ nodes) }
{
    let _nodes = nodes;
    ends.pop()
}

/// Whether two nodes that are put on one end of two are taken from the other, each once.
fn are_passed_on<S: Shelf>(mut ends: Vec<S>, nodes: usize) -> Result<bool, NoMemory>
    requires ends { All (λ e. S.nodes e ≡ nodes) ends.items }
    requires nodes { 3 < nodes }
{
    let (Some(mut one), Some(mut other)) = (pop_end(&mut ends, nodes), pop_end(&mut ends, nodes))
    else {
        return Ok(false);
    };
    one.put(NodeId::of(3))?;
    one.put(NodeId::of(1))?;
    let first = other.take();
    let second = other.take();
    Ok(
        first == Some(NodeId::of(3))
            && second == Some(NodeId::of(1))
            && other.take().is_none()
            && one.take().is_none(),
    )
}

#[test]
fn what_one_end_of_a_queue_was_given_another_gives(rt: HostRuntime) -> Result<(), Fail> {
    let Some(ends) = queue(&rt, rt.alloc(), 2, 4) else {
        panic!(rt; "no memory")
    };
    assert!(rt; matches!(are_passed_on(ends, 4), Ok(true)));
    Ok(())
}

#[test]
fn what_one_deque_was_given_another_steals(rt: HostRuntime) -> Result<(), Fail> {
    let Some(ends) = deques(rt.alloc(), 2, 4) else {
        panic!(rt; "no memory")
    };
    assert!(rt; matches!(are_passed_on(ends, 4), Ok(true)));
    Ok(())
}

/// Whether each of three ends takes first what it was given itself, and then from the one after it.
fn are_taken_in_order<S: Shelf>(mut ends: Vec<S>, nodes: usize) -> Result<bool, NoMemory>
    requires ends { All (λ e. S.nodes e ≡ nodes) ends.items }
    requires nodes { 3 < nodes }
{
    let (Some(mut third), Some(mut second), Some(mut first)) = (
        pop_end(&mut ends, nodes),
        pop_end(&mut ends, nodes),
        pop_end(&mut ends, nodes),
    ) else {
        return Ok(false);
    };
    first.put(NodeId::of(1))?;
    third.put(NodeId::of(3))?;
    second.put(NodeId::of(2))?;
    second.put(NodeId::of(0))?;
    Ok(
        second.take() == Some(NodeId::of(2))
            && first.take() == Some(NodeId::of(1))
            && first.take() == Some(NodeId::of(0))
            && second.take() == Some(NodeId::of(3))
            && third.take().is_none(),
    )
}

#[test]
fn a_worker_steals_from_the_next_one_first(rt: HostRuntime) -> Result<(), Fail> {
    let Some(ends) = deques(rt.alloc(), 3, 4) else {
        panic!(rt; "no memory")
    };
    assert!(rt; matches!(are_taken_in_order(ends, 4), Ok(true)));
    Ok(())
}

/// Whether an end that was asked before gives three nodes in the order in which it was given them,
/// but for the second, which another takes in between.
fn are_kept_in_order<S: Shelf>(mut ends: Vec<S>, nodes: usize) -> Result<bool, NoMemory>
    requires ends { All (λ e. S.nodes e ≡ nodes) ends.items }
    requires nodes { 3 < nodes }
{
    let (Some(mut one), Some(mut other)) = (pop_end(&mut ends, nodes), pop_end(&mut ends, nodes))
    else {
        return Ok(false);
    };
    let before = one.take();
    one.put(NodeId::of(3))?;
    one.put(NodeId::of(1))?;
    one.put(NodeId::of(2))?;
    Ok(
        before.is_none()
            && other.take() == Some(NodeId::of(1))
            && one.take() == Some(NodeId::of(3))
            && one.take() == Some(NodeId::of(2))
            && one.take().is_none()
            && other.take().is_none(),
    )
}

#[test]
fn a_worker_keeps_what_it_puts_on_an_empty_deque(rt: HostRuntime) -> Result<(), Fail> {
    let Some(ends) = deques(rt.alloc(), 2, 4) else {
        panic!(rt; "no memory")
    };
    assert!(rt; matches!(are_kept_in_order(ends, 4), Ok(true)));
    Ok(())
}

/// Whether two ends that were given first nodes together give each of them once, in order,
/// whichever is asked.
fn are_spread<S: Shelf>(mut ends: Vec<S>, first: &[NodeId], nodes: usize) -> Result<bool, NoMemory>
    requires some { 0 < vec_len ends }
    requires ends { All (λ e. S.nodes e ≡ nodes) ends.items }
    requires first { All (λ n. n < nodes) first.now }
{
    S::spread(&mut ends, first, nodes)?;
    let (Some(mut one), Some(mut other)) = (pop_end(&mut ends, nodes), pop_end(&mut ends, nodes))
    else {
        return Ok(false);
    };
    Ok(
        one.take() == Some(NodeId::of(2))
            && other.take() == Some(NodeId::of(0))
            && one.take() == Some(NodeId::of(3))
            && other.take().is_none()
            && one.take().is_none(),
    )
}

#[test]
fn ends_of_a_queue_give_each_first_node_once(rt: HostRuntime) -> Result<(), Fail> {
    let Some(ends) = queue(&rt, rt.alloc(), 2, 4) else {
        panic!(rt; "no memory")
    };
    let first = [NodeId::of(2), NodeId::of(0), NodeId::of(3)];
    assert!(rt; matches!(are_spread(ends, &first, 4), Ok(true)));
    Ok(())
}

#[test]
fn deques_give_each_first_node_once(rt: HostRuntime) -> Result<(), Fail> {
    let Some(ends) = deques(rt.alloc(), 2, 4) else {
        panic!(rt; "no memory")
    };
    let first = [NodeId::of(2), NodeId::of(0), NodeId::of(3)];
    assert!(rt; matches!(are_spread(ends, &first, 4), Ok(true)));
    Ok(())
}

/// So many nodes, by number.
fn first_nodes(alloc: Global, nodes: usize) -> Result<Vec<NodeId>, AllocError>
    ensures { IfOk result (λ v. All (λ n. n < nodes) v.items) }
{
    let mut first = Vec::new(alloc);
    for n in 0..nodes {
        first.push(NodeId::of(n))?;
    }
    Ok(first)
}

/// So many deques, from 1 to 64, that give so many first nodes together.
fn spread_deques(alloc: Global, workers: u64, nodes: usize) -> Option<Vec<StealShelf>> {
    let mut ends = deques(alloc, workers, nodes)?;
    let first = first_nodes(alloc, nodes).ok()?;
    StealShelf::spread(&mut ends, &first, nodes).ok()?;
    Some(ends)
}

/// How often each of so many nodes is given by ends that are asked in turn, one time more than
/// there are nodes.
fn times_given(alloc: Global, mut ends: Vec<StealShelf>, nodes: usize) -> Option<Vec<u64>> {
    let mut times = vec![in alloc; 0u64; nodes].ok()?;
    for _ in 0..nodes.saturating_add(1) {
        for end in ends.iter_mut() {
            if let Some(n) = end.take()
                && let Some(count) = times.get_mut(n.number())
            {
                *count = count.saturating_add(1);
            }
        }
    }
    Some(times)
}

/// Whether so many deques give each of so many first nodes once.
fn is_each_given_once(alloc: Global, workers: u64, nodes: usize) -> bool {
    let Some(ends) = spread_deques(alloc, workers, nodes) else {
        return false;
    };
    let Some(times) = times_given(alloc, ends, nodes) else {
        return false;
    };
    times.len() == nodes && times.iter().all(|count| *count == 1)
}

#[test]
fn few_and_many_deques_give_each_first_node_once(rt: HostRuntime) -> Result<(), Fail> {
    for workers in [1, 2, 4, 64] {
        for nodes in [1, 3, 20, 1_000] {
            assert!(rt;
                is_each_given_once(rt.alloc(), workers, nodes),
                "{workers} {nodes}"
            );
        }
    }
    Ok(())
}

/// How many of so many deques give a node, each asked once, where there are so many first nodes.
fn givers(alloc: Global, workers: u64, nodes: usize) -> Option<usize> {
    let mut ends = spread_deques(alloc, workers, nodes)?;
    let mut givers: usize = 0;
    for end in ends.iter_mut() {
        if end.take().is_some() {
            givers = givers.saturating_add(1);
        }
    }
    Some(givers)
}

#[test]
fn every_deque_gives_a_first_node_where_there_are_enough(rt: HostRuntime) -> Result<(), Fail> {
    let alloc = rt.alloc();
    assert!(rt; givers(alloc, 64, 64) == Some(64));
    assert!(rt; givers(alloc, 64, 1_000) == Some(64));
    assert!(rt; givers(alloc, 4, 5) == Some(4));
    assert!(rt; givers(alloc, 4, 3) == Some(3));
    Ok(())
}
