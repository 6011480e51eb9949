//! Random graphs, some with cycles, whose outcomes are compared with those of a plain walk.
ghost use Rattle.std.specs.Prelude.{◌<◌};

use crate::analysers::CYCLE;
use crate::runs::{KINDS, Kind, has, mix};
use edges::{Adjacency, NodeId};
use fakes::gates::Counting;
use fakes::graphs::graph_of;
use std::alloc::{AllocError, Global};
use std::sync::Wait;
use std::test::Fail;
use std::thread::Threads;

/// How many graphs a test has.
const GRAPHS: usize = 2_500;

/// Numbers that look like random ones: those of one seed are always the same.
#[derive(Drop)]
struct Dice {
    state: u64,
}

impl Dice {
    /// The next number below the limit.
    fn below(&mut self, limit: usize) -> usize
        requires { 0 < limit }
        ensures { result < limit }
    {
        self.state = self
            .state
            .wrapping_mul(6_364_136_223_846_793_005)
            .wrapping_add(1_442_695_040_888_963_407);
        (self.state >> 33) as usize % limit
    }

    /// The next number of workers: mostly few, and 64 at most.
    fn workers(&mut self) -> usize {
        match self.below(16) {
            0 => 1 + self.below(64),
            1..=4 => 1 + self.below(8),
            _ => 1 + self.below(3),
        }
    }
}

/// Adds some of the eight nodes before `n`, and seldom a node that may stand behind it.
fn push_some(
    list: &mut Vec<NodeId>,
    dice: &mut Dice,
    n: usize,
    nodes: usize,
) -> Result<(), AllocError>
    requires { 0 < nodes }
{
    let bits = dice.below(512);
    for d in n.saturating_sub(8)..n {
        if (bits >> (n - d)) % 2 == 1 {
            list.push(NodeId::of(d))?;
        }
    }
    let far = dice.below(nodes);
    if far >= n && dice.below(100) == 0 {
        list.push(NodeId::of(far))?;
    }
    Ok(())
}

fn random_rows(alloc: Global, dice: &mut Dice) -> Result<Adjacency, AllocError> {
    let mut rows = Adjacency::with_capacity(alloc, 200, 1_000)?;
    let mut list = Vec::new(alloc);
    let nodes = dice.below(201);
    for n in 0..nodes {
        list.clear();
        push_some(&mut list, dice, n, nodes)?;
        rows.push(&list)?;
    }
    Ok(rows)
}

/// The outcome of a node from those found so far: its number, more by the first dependency's twice
/// and the last one's. `None` where one of its dependencies has none yet.
fn stepped(found: &[Option<u64>], n: usize, row: &[NodeId]) -> Option<u64> {
    let mut first = None;
    let mut last = 0;
    for d in row {
        last = found.get(d.number()).copied()??;
        first = first.or(Some(last));
    }
    let first = first.unwrap_or(0);
    Some(
        (n as u64)
            .wrapping_add(first)
            .wrapping_add(first)
            .wrapping_add(last),
    )
}

/// The outcomes by going over all nodes again and again, as long as that finds one more. Those that
/// it doesn't find are the cyclic ones'.
fn walked(alloc: Global, rows: &Adjacency) -> Result<Vec<u64>, AllocError> {
    let mut found = vec![in alloc; None; rows.len()]?;
    for _ in 0..rows.len() {
        let mut more = false;
        for n in 0..rows.len() {
            let outcome = stepped(&found, n, rows.row(NodeId::of(n)));
            if let Some(place) = found.get_mut(n)
                && place.is_none()
                && outcome.is_some()
            {
                *place = outcome;
                more = true;
            }
        }
        if !more {
            break;
        }
    }
    let mut outcomes = Vec::with_capacity(alloc, found.len())?;
    for outcome in found {
        outcomes.push(outcome.unwrap_or(CYCLE))?;
    }
    Ok(outcomes)
}

/// Whether a random graph has its outcomes on such a shelf, and its nodes are entered and left
/// once, but none that is cyclic. Tells also whether some are.
fn is_found<R: Threads + Wait + Sync>(
    rt: &R,
    alloc: Global,
    dice: &mut Dice,
    kind: Kind,
) -> Result<(bool, bool), AllocError> {
    let rows = random_rows(alloc, dice)?;
    let wanted = walked(alloc, &rows)?;
    let Some(graph) = graph_of(alloc, rows)? else {
        return Ok((false, false));
    };
    let by = (kind, dice.workers());
    let gate = Counting::of(alloc, graph.edges.nodes())?;
    let gathered = mix(rt, alloc, &graph, by, &gate);
    let same = has(&graph, gathered, wanted.as_slice());
    let acyclic = graph.edges.acyclic();
    Ok((
        same && gate.once_below(acyclic),
        acyclic < graph.edges.nodes(),
    ))
}

/// Whether random graphs have the outcomes of a plain walk, on each shelf in turn, and some of them
/// have cycles.
fn are_found<R: Threads + Wait + Sync>(
    rt: &R,
    alloc: Global,
    seed: u64,
) -> Result<bool, AllocError> {
    let mut dice = Dice { state: seed };
    let mut with_cycles = 0_usize;
    for n in 0..GRAPHS {
        let (same, cyclic) = is_found(rt, alloc, &mut dice, KINDS[n % KINDS.len()])?;
        if !same {
            return Ok(false);
        }
        with_cycles = with_cycles.saturating_add(cyclic as usize);
    }
    Ok(with_cycles > GRAPHS / 5 && with_cycles < GRAPHS / 5 * 4)
}

#[test]
fn random_graphs_have_the_outcomes_of_a_plain_walk(rt: HostRuntime) -> Result<(), Fail> {
    assert!(rt; are_found(&rt, rt.alloc(), 7)?);
    Ok(())
}

#[test]
fn more_random_graphs_do(rt: HostRuntime) -> Result<(), Fail> {
    assert!(rt; are_found(&rt, rt.alloc(), 1_234_567)?);
    Ok(())
}

#[test]
fn random_graphs_of_a_third_seed_do(rt: HostRuntime) -> Result<(), Fail> {
    assert!(rt; are_found(&rt, rt.alloc(), 20_261_123)?);
    Ok(())
}

#[test]
fn random_graphs_of_a_fourth_seed_do(rt: HostRuntime) -> Result<(), Fail> {
    assert!(rt; are_found(&rt, rt.alloc(), 88_172_645_463_325_252)?);
    Ok(())
}
