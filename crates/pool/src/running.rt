//! A run: the board of a graph, the first nodes on the shelf, the workers, and what they found.
ghost use Rattle.std.specs.Prelude.{◌≡◌, ◌+◌, ◌<◌, ◌≤◌, length, max, take, IfOk, Err, vec_len};
ghost use Rattle.pool.specs.Gathered.{HasOutcomes};
ghost use Rattle.pool.specs.Ends.{AreEnds, CanRun, IsGathering};

use crate::analyse::Analyse;
use crate::gate::Gate;
use crate::gathered::Gathered;
use crate::idle::Idle;
use crate::opening::open_board;
use crate::threads::in_threads;
use crate::worker::Site;
use board::{Board, Pass};
use edges::Edges;
use parallel::Workers;
use shelves::{Shelf, StealShelf};
use std::alloc::Global;
use std::sync::Wait;
use std::thread::Threads;

/// Why a run has no answer.
#[derive(Clone, Copy, Debug, PartialEq, Eq)]
pub enum Refused {
    /// The allocator refused memory, to a worker or for what they share.
    NoMemory,
    /// A thread was refused, or the memory to start it, and no worker was refused memory.
    NoThread,
}

/// The outcome of every node of the graph, by so many workers with a deque each. One of them runs
/// in the thread that calls, whose stack should be as large as those of the others: 2 MiB.
///
/// Whenever it answers `Ok`, the outcomes are those along edges: whatever the number of workers,
/// whichever of them ran which node, and whatever the gate does. Cyclic nodes have theirs without a
/// worker. No more workers start than there are nodes that are not cyclic, but one always does; the
/// others start once there may be nodes for them.
///
/// # Errors
///
/// `NoMemory` where memory was refused, also to a worker; `NoThread` where a thread was refused, or
/// the memory to start it, and no worker was refused memory: never with one worker, which starts
/// none. In either case all workers are joined, and nothing is kept.
pub fn run<V, A, G, R>(
    rt: &R,
    alloc: Global,
    graph: &Edges,
    analyse: &A,
    workers: Workers,
    gate: &G,
) -> Result<Gathered<V>, Refused>
where
    V: Send + Sync + Drop,
    A: Analyse<V>,
    G: Gate,
    R: Threads + Wait + Sync,
    requires nodes { A.nodes analyse.now ≡ length graph.now.deps }
    ensures nodes { IfOk result (λ g. g.nodes ≡ length graph.now.deps) }
    ensures closed { IfOk result (λ g. length g.closed.known ≡ graph.now.acyclic) }
    ensures outcomes { let a = analyse.now in IfOk result
        (HasOutcomes (A.cycle a) (A.step a) (A.fits a) graph.now.deps) }
    ensures threads { result ≡ Err Refused.NoThread → 1 < workers }
{
    let workers = workers.useful(graph.acyclic());
    match StealShelf::ends(alloc, workers, graph.nodes()) {
        Ok(ends) => run_on(rt, alloc, graph, analyse, ends, gate),
        Err(_) => Err(Refused::NoMemory),
    }
}

/// The outcome of every node of the graph, by one worker for each of these ends of a shelf.
///
/// It promises what [`run`] does, for every shelf and 1 to 64 ends of it. Where there are more ends
/// than nodes that are not cyclic, it lets those at the back go.
///
/// # Errors
///
/// As for [`run`].
pub fn run_on<V, A, S, G, R>(
    rt: &R,
    alloc: Global,
    graph: &Edges,
    analyse: &A,
    mut ends: Vec<S>,
    gate: &G,
) -> Result<Gathered<V>, Refused>
where
    V: Send + Sync + Drop,
    A: Analyse<V>,
    S: Shelf + Send,
    G: Gate,
    R: Threads + Wait + Sync,
    requires workers { (0 < vec_len ends) × (vec_len ends < 65) }
    requires shelves { AreEnds S.nodes (length graph.now.deps) ends.items }
    requires nodes { A.nodes analyse.now ≡ length graph.now.deps }
    ensures nodes { IfOk result (λ g. g.nodes ≡ length graph.now.deps) }
    ensures closed { IfOk result (λ g. length g.closed.known ≡ graph.now.acyclic) }
    ensures outcomes { let a = analyse.now in IfOk result
        (HasOutcomes (A.cycle a) (A.step a) (A.fits a) graph.now.deps) }
    ensures threads { result ≡ Err Refused.NoThread → 1 < vec_len ends }
{
    keep_useful(graph, &mut ends);
    let Ok(()) = S::spread(&mut ends, graph.ready(), graph.nodes()) else {
        return Err(Refused::NoMemory);
    };
    let Ok(cycle) = analyse.cyclic(alloc) else {
        return Err(Refused::NoMemory);
    };
    let Ok((board, passes)) = open_board(alloc, graph, ends.len() + 1) else {
        return Err(Refused::NoMemory);
    };
    let passes = by_workers(rt, alloc, &board, graph, analyse, gate, ends, passes)?;
    Ok(gather(board, graph, analyse, passes, cycle))
}

/// Lets the ends go that are more than there are nodes that are not cyclic, but keeps one.
fn keep_useful<S: Shelf>(graph: &Edges, ends: &mut Vec<S>)
    requires some { 0 < vec_len ends.old }
    requires shelves { AreEnds S.nodes (length graph.now.deps) ends.old.items }
    ensures some { 0 < vec_len ends.new }
    ensures most { vec_len ends.new ≤ vec_len ends.old }
    ensures few { vec_len ends.new ≤ max 1 graph.now.acyclic }
    ensures shelves { AreEnds S.nodes (length graph.now.deps) ends.new.items }
{
    ends.truncate(graph.acyclic().max(1));
}

/// All passes of the board, after workers at these ends have ended.
fn by_workers<V, A, S, G, R>(
    rt: &R,
    alloc: Global,
    board: &Board<V>,
    graph: &Edges,
    analyse: &A,
    gate: &G,
    ends: Vec<S>,
    passes: Vec<Pass<V>>,
) -> Result<Vec<Pass<V>>, Refused>
where
    V: Send + Sync + Drop,
    A: Analyse<V>,
    S: Shelf + Send,
    G: Gate,
    R: Threads + Wait + Sync,
    requires plan { board.now.plan ≡ take graph.now.acyclic graph.now.deps }
    requires nodes { A.nodes analyse.now ≡ length graph.now.deps }
    requires run { CanRun S.nodes (length graph.now.deps) board.now ends.items passes.items }
    ensures all { IfOk result
        (λ v. IsGathering (A.step analyse.now) (A.fits analyse.now) board.now v.items) }
    ensures threads { result ≡ Err Refused.NoThread → 1 < vec_len ends }
{
    let idle = Idle::of(ends.len() as u64);
    let site = Site {
        rt,
        alloc,
        board,
        graph,
        analyse,
        gate,
        idle: &idle,
    };
    in_threads(&site, ends, passes)
}

/// What all passes found, together, and the outcome of cyclic nodes.
fn gather<V, A: Analyse<V>>(
    board: Board<V>,
    graph: &Edges,
    analyse: &A,
    passes: Vec<Pass<V>>,
    cycle: V,
) -> Gathered<V>
    requires plan { board.plan ≡ take graph.now.acyclic graph.now.deps }
    requires all { IsGathering (A.step analyse.now) (A.fits analyse.now) board passes.items }
    requires cycle { cycle ≡ A.cycle analyse.now }
    ensures nodes { result.nodes ≡ length graph.now.deps }
    ensures closed { length result.closed.known ≡ graph.now.acyclic }
    ensures outcomes { let a = analyse.now in
        HasOutcomes (A.cycle a) (A.step a) (A.fits a) graph.now.deps result }
{
    let _analyse = analyse;
    let acyclic = graph.acyclic();
    Gathered::of(board.close(passes), cycle, acyclic, graph.nodes())
}
