//! Runs of several workers. All are at watched ends, so that a shelf that loses a number fails a
//! test and doesn't hang it.
ghost use Rattle.std.specs.Prelude.{◌≡◌, ◌<◌, length, IfOk, IfSome};
ghost use Rattle.std.specs.List.{All};
ghost use Rattle.pool.specs.Gathered.{HasOutcomes};

use crate::analysers::{CYCLE, Mixing, Refusing};
use edges::Numbered;
use fakes::ends::{Fault, Watch, all_faulty, all_twice, all_watched};
use fakes::gates::{Both, Counting, Meeting};
use fakes::graphs::{apart, chain, diamond, small};
use pool::{
    Analyse, Edges, Gate, Gathered, LockShelf, NoGate, NodeId, Refused, Shelf, StealShelf, Workers,
    run_on,
};
use std::alloc::{AllocError, Global};
use std::sync::Wait;
use std::test::Fail;
use std::thread;
use std::thread::Threads;

/// A graph as it was made, which a test hands on and doesn't hold.
type Made = Result<Option<Numbered>, AllocError>;

/// On which shelf the workers of a test run.
#[derive(Clone, Copy, PartialEq, Eq)]
pub(crate) enum Kind {
    Lock,
    Steal,
    StealTwice,
}

pub(crate) const KINDS: [Kind; 3] = [Kind::Lock, Kind::Steal, Kind::StealTwice];

/// A run of workers at these ends. `None` where an end gave up, or a node was worked on that the
/// shelf hadn't given.
pub(crate) fn run_at<V, S, A, G, R>(
    rt: &R,
    alloc: Global,
    graph: &Edges,
    analyse: &A,
    ends: Vec<S>,
    gate: &G,
) -> Option<Result<Gathered<V>, Refused>>
where
    V: Send + Sync + Drop,
    S: Shelf + Send,
    A: Analyse<V>,
    G: Gate,
    R: Threads + Wait + Sync,
    requires ends { All (λ e. S.nodes e ≡ length graph.now.deps) ends.items }
    requires count { (0 < length ends.items) × (length ends.items < 65) }
    requires nodes { A.nodes analyse.now ≡ length graph.now.deps }
    ensures nodes { IfSome result (λ a. IfOk a (λ g. g.nodes ≡ length graph.now.deps)) }
    ensures outcomes { let a = analyse.now in IfSome result
        (λ r. IfOk r (HasOutcomes (A.cycle a) (A.step a) (A.fits a) graph.now.deps)) }
{
    let watch = Watch::of(alloc, graph.nodes()).ok()?;
    let ends = all_watched(alloc, ends, graph.nodes(), &watch).ok()?;
    let both = Both {
        first: gate,
        second: &watch,
    };
    let answer = run_on(rt, alloc, graph, analyse, ends, &both);
    if watch.is_fine() { Some(answer) } else { None }
}

/// A run of so many workers, from 1 to 64, on such a shelf.
fn run_by<A, G, R>(
    rt: &R,
    alloc: Global,
    graph: &Edges,
    analyse: &A,
    by: (Kind, usize),
    gate: &G,
) -> Option<Result<Gathered<u64>, Refused>>
where
    A: Analyse<u64>,
    G: Gate,
    R: Threads + Wait + Sync,
    requires { A.nodes analyse.now ≡ length graph.now.deps }
    ensures { IfSome result (λ a. IfOk a (λ g. g.nodes ≡ length graph.now.deps)) }
{
    let (kind, workers) = by;
    let workers = Workers::new(workers as u64)?;
    let nodes = graph.nodes();
    match kind {
        Kind::Lock => {
            let ends = LockShelf::ends(rt, alloc, workers, nodes).ok()?;
            run_at(rt, alloc, graph, analyse, ends, gate)
        }
        Kind::Steal => {
            let ends = StealShelf::ends(alloc, workers, nodes).ok()?;
            run_at(rt, alloc, graph, analyse, ends, gate)
        }
        Kind::StealTwice => {
            let ends = StealShelf::ends(alloc, workers, nodes).ok()?;
            let ends = all_twice(alloc, ends, nodes).ok()?;
            run_at(rt, alloc, graph, analyse, ends, gate)
        }
    }
}

/// The outcomes of a run whose outcome at each node mixes those of its dependencies.
pub(crate) fn mix<G: Gate, R: Threads + Wait + Sync>(
    rt: &R,
    alloc: Global,
    graph: &Numbered,
    by: (Kind, usize),
    gate: &G,
) -> Option<Gathered<u64>>
    ensures { IfSome result (λ g. g.nodes ≡ length graph.now.edges.deps) }
{
    let mixing = Mixing {
        names: graph.origin.as_slice(),
    };
    if mixing.names.len() != graph.edges.nodes() {
        return None;
    }
    match run_by(rt, alloc, &graph.edges, &mixing, by, gate)? {
        Ok(gathered) => Some(gathered),
        Err(_) => None,
    }
}

/// Whether the nodes have these outcomes, one for each, by the numbers that were given to them, and
/// no node was left at the end.
pub(crate) fn has(graph: &Numbered, gathered: Option<Gathered<u64>>, wanted: &[u64]) -> bool
    requires { IfSome gathered (λ g. g.nodes ≡ length graph.now.edges.deps) }
{
    let Some(gathered) = gathered else {
        return false;
    };
    let closed = gathered.closed();
    if closed.left() != 0 || closed.halted() || graph.edges.nodes() != wanted.len() {
        return false;
    }
    for (n, name) in graph.origin.iter().enumerate() {
        if n >= graph.edges.nodes() {
            return false;
        }
        let found = *gathered.outcome(NodeId::of(n));
        if wanted.get(name.number()).copied() != Some(found) {
            return false;
        }
    }
    true
}

/// Whether a graph has these outcomes by 1, 2 and 64 workers, on each shelf.
fn are_found<R: Threads + Wait + Sync>(
    rt: &R,
    alloc: Global,
    graph: &Numbered,
    wanted: &[u64],
) -> bool {
    for kind in KINDS {
        for workers in [1, 2, 64] {
            if !has(
                graph,
                mix(rt, alloc, graph, (kind, workers), &NoGate),
                wanted,
            ) {
                return false;
            }
        }
    }
    true
}

/// The same of a graph as it was made.
fn found_by_all<R: Threads + Wait + Sync>(
    rt: &R,
    alloc: Global,
    graph: Made,
    wanted: &[u64],
) -> bool {
    match graph {
        Ok(Some(graph)) => are_found(rt, alloc, &graph, wanted),
        _ => false,
    }
}

#[test]
fn the_diamond_by_1_2_and_64_workers(rt: HostRuntime) -> Result<(), Fail> {
    let alloc = rt.alloc();
    assert!(rt; found_by_all(&rt, alloc, diamond(alloc), &[0, 1, 2, 7]));
    Ok(())
}

#[test]
fn a_chain_of_16(rt: HostRuntime) -> Result<(), Fail> {
    let alloc = rt.alloc();
    let wanted = [
        0, 1, 5, 18, 58, 179, 543, 1636, 4916, 14757, 44281, 132854, 398574, 1195735, 3587219,
        10761672,
    ];
    assert!(rt; found_by_all(&rt, alloc, chain(alloc, 16), &wanted));
    Ok(())
}

/// Node 0, eight nodes that depend on it, and node 9 that depends on these.
fn fan(alloc: Global) -> Made {
    let one: &[usize] = &[0];
    let rows: [&[usize]; 10] = [
        &[],
        one,
        one,
        one,
        one,
        one,
        one,
        one,
        one,
        &[1, 2, 3, 4, 5, 6, 7, 8],
    ];
    small(alloc, &rows)
}

#[test]
fn one_first_node_that_opens_into_eight(rt: HostRuntime) -> Result<(), Fail> {
    let alloc = rt.alloc();
    assert!(rt; found_by_all(&rt, alloc, fan(alloc), &[0, 1, 2, 3, 4, 5, 6, 7, 8, 19]));
    assert!(rt; meet(&rt, alloc, fan(alloc), 8, 1, 8));
    Ok(())
}

#[test]
fn one_node(rt: HostRuntime) -> Result<(), Fail> {
    let alloc = rt.alloc();
    assert!(rt; found_by_all(&rt, alloc, apart(alloc, 1), &[0]));
    Ok(())
}

#[test]
fn the_empty_graph(rt: HostRuntime) -> Result<(), Fail> {
    let alloc = rt.alloc();
    assert!(rt; found_by_all(&rt, alloc, apart(alloc, 0), &[]));
    Ok(())
}

/// Whether the nodes of the diamond are entered and left once, by eight workers on a shelf.
fn each_runs_once<R: Threads + Wait + Sync>(
    rt: &R,
    alloc: Global,
    kind: Kind,
) -> Result<bool, AllocError> {
    let Some(graph) = diamond(alloc)? else {
        return Ok(false);
    };
    let gate = Counting::of(alloc, 4)?;
    let gathered = mix(rt, alloc, &graph, (kind, 8), &gate);
    Ok(has(&graph, gathered, &[0, 1, 2, 7]) && gate.once())
}

#[test]
fn each_node_is_entered_and_left_once(rt: HostRuntime) -> Result<(), Fail> {
    let alloc = rt.alloc();
    for kind in KINDS {
        assert!(rt; each_runs_once(&rt, alloc, kind)?);
    }
    Ok(())
}

/// 1 and 2 depend on each other, 3 on these and on 0, and 4 on 0.
fn with_a_cycle(alloc: Global) -> Made {
    let rows: [&[usize]; 5] = [&[], &[2], &[1], &[0, 1], &[0]];
    small(alloc, &rows)
}

/// Whether two nodes of these five are not cyclic, and they alone are entered and left, once, on a
/// shelf.
fn two_alone_run<R: Threads + Wait + Sync>(
    rt: &R,
    alloc: Global,
    kind: Kind,
) -> Result<bool, AllocError> {
    let Some(graph) = with_a_cycle(alloc)? else {
        return Ok(false);
    };
    let gate = Counting::of(alloc, 5)?;
    let gathered = mix(rt, alloc, &graph, (kind, 8), &gate);
    Ok(gathered.is_some() && gate.once_below(2) && graph.edges.acyclic() == 2)
}

#[test]
fn cyclic_nodes_have_their_outcome_without_a_worker(rt: HostRuntime) -> Result<(), Fail> {
    let alloc = rt.alloc();
    assert!(rt;
        found_by_all(
            &rt,
            alloc,
            with_a_cycle(alloc),
            &[0, CYCLE, CYCLE, CYCLE, 4]
        )
    );
    for kind in KINDS {
        assert!(rt; two_alone_run(&rt, alloc, kind)?);
    }
    Ok(())
}

#[test]
fn a_node_that_depends_on_itself_is_cyclic(rt: HostRuntime) -> Result<(), Fail> {
    let alloc = rt.alloc();
    let rows: [&[usize]; 1] = [&[0]];
    assert!(rt; found_by_all(&rt, alloc, small(alloc, &rows), &[CYCLE]));
    Ok(())
}

/// Whether the nodes from `low` to `high` were all at work at one time, on each shelf.
fn meet<R: Threads + Wait + Sync>(
    rt: &R,
    alloc: Global,
    graph: Made,
    workers: usize,
    low: usize,
    high: usize,
) -> bool {
    match graph {
        Ok(Some(graph)) => meet_behind(rt, alloc, &graph, workers, (low, high), &NoGate),
        _ => false,
    }
}

/// The same, where each worker comes to another gate first.
fn meet_behind<R: Threads + Wait + Sync, G: Gate>(
    rt: &R,
    alloc: Global,
    graph: &Numbered,
    workers: usize,
    nodes: (usize, usize),
    first: &G,
) -> bool {
    let (low, high) = nodes;
    for kind in KINDS {
        let wanted = (high as u64).saturating_sub(low as u64).saturating_add(1);
        let second = Meeting::of(low, high, wanted);
        let gate = Both {
            first,
            second: &second,
        };
        if mix(rt, alloc, graph, (kind, workers), &gate).is_none() || !second.met() {
            return false;
        }
    }
    true
}

/// How often a worker looks away at a [`Pause`]: long enough for all others to sleep.
const LOOKS: u64 = 20_000;

/// Holds the worker at node 0 up for a while.
struct Pause;

impl Gate for Pause {
    fn enter(&self, n: NodeId) {
        if n.number() == 0 {
            for _ in 0..LOOKS {
                thread::yield_now();
            }
        }
    }

    fn leave(&self, _n: NodeId) {}
}

/// Nodes 0 and 1, and eight nodes that depend on node 0.
fn two_and_fan(alloc: Global) -> Made {
    let one: &[usize] = &[0];
    let rows: [&[usize]; 10] = [&[], &[], one, one, one, one, one, one, one, one];
    small(alloc, &rows)
}

/// Whether these eight nodes are all at work at one time, on each shelf, after a pause at node 0.
fn meet_after_a_pause<R: Threads + Wait + Sync>(rt: &R, alloc: Global) -> bool {
    match two_and_fan(alloc) {
        Ok(Some(graph)) => meet_behind(rt, alloc, &graph, 8, (2, 9), &Pause),
        _ => false,
    }
}

#[test]
fn workers_that_sleep_are_all_woken(rt: HostRuntime) -> Result<(), Fail> {
    assert!(rt; meet_after_a_pause(&rt, rt.alloc()));
    Ok(())
}

#[test]
fn two_workers_are_at_work_at_once(rt: HostRuntime) -> Result<(), Fail> {
    let alloc = rt.alloc();
    assert!(rt; meet(&rt, alloc, apart(alloc, 2), 2, 0, 1));
    assert!(rt; meet(&rt, alloc, diamond(alloc), 2, 1, 2));
    Ok(())
}

#[test]
fn eight_workers_are_at_work_at_once(rt: HostRuntime) -> Result<(), Fail> {
    let alloc = rt.alloc();
    assert!(rt; meet(&rt, alloc, apart(alloc, 8), 8, 0, 7));
    Ok(())
}

/// A run of so many workers for whom there is no memory at one node.
fn refuse<G: Gate, R: Threads + Wait + Sync>(
    rt: &R,
    alloc: Global,
    graph: &Numbered,
    by: (Kind, usize),
    at: usize,
    gate: &G,
) -> Option<Result<Gathered<u64>, Refused>> {
    let mixing = Mixing {
        names: graph.origin.as_slice(),
    };
    if mixing.names.len() != graph.edges.nodes() {
        return None;
    }
    let refusing = Refusing { mixing, at };
    run_by(rt, alloc, &graph.edges, &refusing, by, gate)
}

/// Whether so many workers for whom there is no memory at one node of the diamond say so, on each
/// shelf.
fn are_refused<R: Threads + Wait + Sync>(rt: &R, alloc: Global, workers: usize, at: usize) -> bool {
    let Ok(Some(graph)) = diamond(alloc) else {
        return false;
    };
    for kind in KINDS {
        match refuse(rt, alloc, &graph, (kind, workers), at, &NoGate) {
            Some(Err(Refused::NoMemory)) => {}
            _ => return false,
        }
    }
    true
}

#[test]
fn a_worker_without_memory_ends_the_run(rt: HostRuntime) -> Result<(), Fail> {
    let alloc = rt.alloc();
    assert!(rt; are_refused(&rt, alloc, 1, 0));
    assert!(rt; are_refused(&rt, alloc, 2, 2));
    assert!(rt; are_refused(&rt, alloc, 64, 3));
    Ok(())
}

/// Whether four workers, each at a node of its own when node 2 is refused, all end. That node stays
/// left, so only the halt ends the others.
fn all_are_halted<R: Threads + Wait + Sync>(rt: &R, alloc: Global) -> bool {
    let Ok(Some(four)) = apart(alloc, 4) else {
        return false;
    };
    let gate = Meeting::of(0, 3, 4);
    let answer = refuse(rt, alloc, &four, (Kind::Steal, 4), 2, &gate);
    matches!(answer, Some(Err(Refused::NoMemory))) && gate.met()
}

#[test]
fn the_halt_reaches_workers_that_were_refused_nothing(rt: HostRuntime) -> Result<(), Fail> {
    assert!(rt; all_are_halted(&rt, rt.alloc()));
    Ok(())
}

/// At how many ends numbers are asked for, where 64 ends are handed to a run of the graph.
fn ends_in_use<R: Threads + Wait + Sync>(rt: &R, alloc: Global, graph: Made) -> Option<u64> {
    let graph = graph.ok()??;
    let nodes = graph.edges.nodes();
    let mixing = Mixing {
        names: graph.origin.as_slice(),
    };
    if mixing.names.len() != nodes {
        return None;
    }
    let watch = Watch::of(alloc, nodes).ok()?;
    let workers = Workers::new(64)?;
    let ends = LockShelf::ends(rt, alloc, workers, nodes).ok()?;
    let ends = all_watched(alloc, ends, nodes, &watch).ok()?;
    let answer = run_on(rt, alloc, &graph.edges, &mixing, ends, &NoGate);
    if answer.is_ok() {
        Some(watch.ends())
    } else {
        None
    }
}

#[test]
fn no_more_workers_start_than_there_are_nodes_to_run(rt: HostRuntime) -> Result<(), Fail> {
    let alloc = rt.alloc();
    let rows: [&[usize]; 6] = [&[], &[], &[], &[4], &[3], &[4]];
    assert!(rt; ends_in_use(&rt, alloc, apart(alloc, 0)).is_some_and(|n| n <= 1));
    assert!(rt; ends_in_use(&rt, alloc, small(alloc, &rows)).is_some_and(|n| n <= 3));
    Ok(())
}

#[test]
fn one_worker_alone_runs_a_chain(rt: HostRuntime) -> Result<(), Fail> {
    let alloc = rt.alloc();
    assert!(rt; ends_in_use(&rt, alloc, chain(alloc, 16)) == Some(1));
    Ok(())
}

/// A run of two workers over the diamond whose ends have a fault at one number, and whether the
/// watch over them finds it fine. Where the number is lost, the watch waits for few turns alone.
fn with_fault<R: Threads + Wait + Sync>(
    rt: &R,
    alloc: Global,
    at: usize,
    fault: Fault,
) -> Option<(Option<Refused>, bool)> {
    let graph = diamond(alloc).ok()??;
    let nodes = graph.edges.nodes();
    let mixing = Mixing {
        names: graph.origin.as_slice(),
    };
    if mixing.names.len() != nodes {
        return None;
    }
    let watch = match fault {
        Fault::Loses => Watch::with_turns(alloc, nodes, 10_000).ok()?,
        Fault::Refuses => Watch::of(alloc, nodes).ok()?,
    };
    let workers = Workers::new(2)?;
    let ends = StealShelf::ends(alloc, workers, nodes).ok()?;
    let ends = all_faulty(alloc, ends, nodes, at, fault).ok()?;
    let ends = all_watched(alloc, ends, nodes, &watch).ok()?;
    let refused = run_on(rt, alloc, &graph.edges, &mixing, ends, &watch).err();
    Some((refused, watch.is_fine()))
}

#[test]
fn a_number_that_a_shelf_loses_is_seen_and_hangs_no_run(rt: HostRuntime) -> Result<(), Fail> {
    // Node 0 is lost before the workers begin, node 1 by a worker while the other has node 2.
    for at in [0, 1, 3] {
        let found = with_fault(&rt, rt.alloc(), at, Fault::Loses);
        assert!(rt; found == Some((None, false)), "{at}");
    }
    Ok(())
}

#[test]
fn a_shelf_without_memory_ends_the_run(rt: HostRuntime) -> Result<(), Fail> {
    for at in [0, 1, 3] {
        let found = with_fault(&rt, rt.alloc(), at, Fault::Refuses);
        assert!(rt; found == Some((Some(Refused::NoMemory), true)), "{at}");
    }
    Ok(())
}
