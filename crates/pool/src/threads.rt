//! Workers, one an end: one in the thread that calls, the others in threads of their own, once
//! there may be nodes for them; and their passes back from them.
ghost use Rattle.std.specs.Prelude.{◌≡◌, ◌+◌, ◌<◌, ◌≤◌, true, false, [], ◌∷◌, ◌++◌, length};
ghost use Rattle.std.specs.Prelude.{MatchBool, MatchOption, IfOk, IfSome, Err};
ghost use Rattle.std.specs.Prelude.{vec_len, vec_capacity};
ghost use Rattle.std.specs.Bool.{OnTrue};
ghost use Rattle.std.specs.List.{All};
ghost use Rattle.board.specs.declared.journal.Journal.{Journal};
ghost use Rattle.board.specs.Views.{IsPassOf, IsNew};
ghost use Rattle.pool.specs.Settled.{IsSound};
ghost use Rattle.pool.specs.Ends.{AreEnds, CanRun, EndingSays, EndedWell};
ghost use Rattle.pool.specs.Ends.{IsFine, IsQuiet, IsGathering};

use crate::analyse::Analyse;
use crate::gate::Gate;
use crate::running::Refused;
use crate::worker::{Ending, Site, run_worker, take_turns};
use board::{Board, Pass};
use core::thread::Stack;
use shelves::Shelf;
use std::sync::Wait;
use std::thread;
use std::thread::{Promise, PromisedHandle, Scope, Threads};

/// The stack of a worker's thread, in bytes. Nothing that a worker runs recurses by the length of
/// an input: values are at most 64 levels deep and depsets at most 1,000, and such a depset is
/// made, listed and let go on an eighth of this.
const STACK: usize = 2 * 1024 * 1024;

/// What a worker's thread promises: its pass is of the board, each node that it finished has the
/// step of what the pass knows of the node's dependencies, and the pass says how the worker ended.
#[derive(Drop)]
pub struct Duty<'s, V, A> {
    board: &'s Board<V>,
    analyse: &'s A,
}

impl<'s, V, A: Analyse<V>> Promise<(Pass<V>, Ending)> for Duty<'s, V, A> {
    ghost kept_by = { λ p r. IsSound (A.step p.analyse.now) (A.fits p.analyse.now) p.board.now r.0
        × EndingSays r.1 r.0.journal };
}

/// A worker at work.
type Handle<'s, V, A> = PromisedHandle<(Pass<V>, Ending), Duty<'s, V, A>>;

/// Starts one worker. `None` where a thread was refused, or the memory to start it.
fn start_one<'s, E, V, A, S, G, R>(
    scope: &Scope<'s, E>,
    site: &'s Site<'s, V, A, G, R>,
    end: S,
    pass: Pass<V>,
) -> Option<Handle<'s, V, A>>
where
    V: Send + Sync + Drop + 's,
    A: Analyse<V>,
    S: Shelf + Send + 's,
    G: Gate,
    R: Threads + Wait + Sync,
    requires shelf { S.nodes end ≡ length site.now.graph.now.deps }
    requires pass { IsNew site.now.board.now pass }
    ensures { IfSome result (λ h. (h.promise.board.now ≡ site.entry.now.board.now)
        × (h.promise.analyse.now ≡ site.entry.now.analyse.now)) }
{
    let duty: Duty<'s, V, A> = Duty {
        board: site.board,
        analyse: site.analyse,
    };
    Stack::new()
        .stack_size(STACK)
        .spawn_scoped_with(
            scope,
            duty,
            move || -> (Pass<V>, Ending)
                requires shelf { S.nodes end ≡ length site.now.graph.now.deps }
                requires pass { IsNew site.now.board.now pass }
                ensures { let a = site.entry.now.analyse.now in
                    IsSound (A.step a) (A.fits a) site.entry.now.board.now result.0
                    × EndingSays result.1 result.0.journal }
            { run_worker(site, end, pass) },
        )
        .ok()
}

/// Starts a worker for each pass. Where a thread is refused, it starts no more and sets the halt.
/// True says that none was refused.
fn start_all<'s, E, V, A, S, G, R>(
    scope: &Scope<'s, E>,
    site: &'s Site<'s, V, A, G, R>,
    mut ends: Vec<S>,
    passes: Vec<Pass<V>>,
    own: &mut Pass<V>,
    mut handles: Vec<Handle<'s, V, A>>,
) -> (Vec<Handle<'s, V, A>>, bool)
where
    V: Send + Sync + Drop + 's,
    A: Analyse<V>,
    S: Shelf + Send + 's,
    G: Gate,
    R: Threads + Wait + Sync,
    requires ends { AreEnds S.nodes (length site.now.graph.now.deps) ends.items }
    requires count { vec_len ends ≡ vec_len passes }
    requires passes { All (IsNew site.now.board.now) passes.items }
    requires own { IsPassOf site.now.board.now own.old }
    requires room { (vec_len handles ≡ 0) × (vec_len passes ≤ vec_capacity handles) }
    ensures promises { All (λ h. (h.promise.board.now ≡ site.entry.now.board.now)
        × (h.promise.analyse.now ≡ site.entry.now.analyse.now)) result.0.items }
    ensures all { MatchBool result.1
        ((vec_len result.0 ≡ vec_len passes) × (own.new ≡ own.old))
        (own.new.journal.set ≡ true) }
    ensures most { vec_len result.0 ≤ vec_len passes }
    ensures refused { result.1 ≡ false → 0 < vec_len passes }
{
    for pass in passes {
        let Some(end) = ends.pop() else {
            unreachable!()
        };
        match start_one::<E, V, A, S, G, R>(scope, site, end, pass) {
            Some(handle) => handles.push_reserved(handle),
            None => {
                site.board.halt(own);
                site.idle.call_off();
                return (handles, false);
            }
        }
    }
    (handles, true)
}

/// Whether the worker was refused nothing.
fn ended_well(ending: Ending) -> bool
    ensures { (j : Journal) → EndingSays ending j → OnTrue result (EndedWell j) }
{
    match ending {
        Ending::Done => true,
        Ending::Halted => true,
        Ending::NoMemory => false,
    }
}

/// Joins all workers. True says that none of them was refused memory.
fn join_all<'s, V, A, R>(
    rt: &R,
    board: &'s Board<V>,
    analyse: &'s A,
    handles: Vec<Handle<'s, V, A>>,
    mut passes: Vec<Pass<V>>,
) -> (Vec<Pass<V>>, bool)
where
    V: Send + Sync + Drop,
    A: Analyse<V>,
    R: Threads,
    requires promises { All (λ h. (h.promise.board.now ≡ board.now)
        × (h.promise.analyse.now ≡ analyse.now)) handles.items }
    requires room { (vec_len passes ≡ 0) × (vec_len handles + 1 < vec_capacity passes) }
    ensures count { vec_len result.0 ≡ vec_len handles.entry }
    ensures room { vec_len result.0 + 1 < vec_capacity result.0 }
    ensures fine { let a = analyse.entry.now in
        OnTrue result.1 (All (IsFine (A.step a) (A.fits a) board.entry.now) result.0.items) }
{
    let _board = board;
    let _analyse = analyse;
    let mut well = true;
    for handle in handles {
        let (pass, ending) = handle.join(rt);
        well &= ended_well(ending);
        passes.push_reserved(pass);
    }
    (passes, well)
}

/// The turns of the worker in this thread while it is alone. `None` says that there may be nodes
/// for others: so it is from the beginning where more than one node depends on none.
fn work_alone<'s, V, A, S, G, R>(
    site: &'s Site<'s, V, A, G, R>,
    end: &mut S,
    pass: &mut Pass<V>,
) -> Option<Ending>
where
    V: Send + Sync + Drop + 's,
    A: Analyse<V>,
    S: Shelf + Send + 's,
    G: Gate,
    R: Threads + Wait + Sync,
    requires shelf { S.nodes end.old ≡ length site.now.graph.now.deps }
    requires pass { let a = site.now.analyse.now in
        IsQuiet (A.step a) (A.fits a) site.now.board.now pass.old }
    ensures shelf { S.nodes end.new ≡ length site.entry.now.graph.now.deps }
    ensures pass { let a = site.entry.now.analyse.now in
        IsSound (A.step a) (A.fits a) site.entry.now.board.now pass.new }
    ensures ending { MatchOption result
        (pass.new.journal.set ≡ false)
        (λ e. EndingSays e pass.new.journal) }
{
    if site.graph.ready().len() > 1 {
        return None;
    }
    take_turns(site, end, pass, true)
}

/// All passes: those of the others, and behind them the run's own, and the one of the worker in
/// this thread.
fn with_own<V>(mut passes: Vec<Pass<V>>, own: Pass<V>, pass: Pass<V>) -> Vec<Pass<V>>
    requires room { vec_len passes + 1 < vec_capacity passes }
    ensures { result.items ≡ (passes.items ++ own ∷ []) ++ pass ∷ [] }
{
    passes.push_reserved(own);
    passes.push_reserved(pass);
    passes
}

/// All passes, after the worker in this thread has gone on beside others, each in a thread of its
/// own.
fn with_others<'s, E, V, A, S, G, R>(
    scope: &Scope<'s, E>,
    site: &'s Site<'s, V, A, G, R>,
    ends: Vec<S>,
    passes: Vec<Pass<V>>,
    mut own: Pass<V>,
    end: S,
    pass: Pass<V>,
) -> Result<Vec<Pass<V>>, Refused>
where
    V: Send + Sync + Drop + 's,
    A: Analyse<V>,
    S: Shelf + Send + 's,
    G: Gate,
    R: Threads + Wait + Sync,
    requires ends { AreEnds S.nodes (length site.now.graph.now.deps) ends.items }
    requires count { (vec_len ends ≡ vec_len passes) × (vec_len ends < 64) }
    requires passes { (vec_len passes + 2 ≡ site.now.board.now.passes)
        × All (IsNew site.now.board.now) passes.items }
    requires own { IsNew site.now.board.now own }
    requires shelf { S.nodes end ≡ length site.now.graph.now.deps }
    requires pass { let a = site.now.analyse.now in
        IsQuiet (A.step a) (A.fits a) site.now.board.now pass }
    ensures all { let a = site.entry.now.analyse.now in IfOk result
        (λ v. IsGathering (A.step a) (A.fits a) site.entry.now.board.now v.items) }
    ensures threads { result ≡ Err Refused.NoThread → 0 < vec_len ends }
{
    let others = passes.len();
    let Ok(handles) = Vec::with_capacity(site.alloc, others) else {
        return Err(Refused::NoMemory);
    };
    let Ok(back) = Vec::with_capacity(site.alloc, others + 2) else {
        return Err(Refused::NoMemory);
    };
    let (handles, all) = start_all::<E, V, A, S, G, R>(
        scope, site, ends, passes, &mut own, handles,
    );
    let (pass, ending) = run_worker(site, end, pass);
    let (back, well) = join_all::<V, A, R>(site.rt, site.board, site.analyse, handles, back);
    if !well || !ended_well(ending) {
        return Err(Refused::NoMemory);
    }
    if !all {
        return Err(Refused::NoThread);
    }
    Ok(with_own(back, own, pass))
}

/// All passes, after all workers have ended. The worker at the last end runs in this thread, and
/// its pass comes last: what the last pass knows is where a board that is closed gathers the rest.
/// The others start once there may be nodes for them.
///
/// `NoMemory` comes where a worker was refused memory or there was none for the passes, `NoThread`
/// where a thread was refused, or the memory to start it, and none of this was. All workers that
/// were started are joined.
fn in_scope<'s, E, V, A, S, G, R>(
    scope: &Scope<'s, E>,
    site: &'s Site<'s, V, A, G, R>,
    mut ends: Vec<S>,
    mut passes: Vec<Pass<V>>,
) -> Result<Vec<Pass<V>>, Refused>
where
    V: Send + Sync + Drop + 's,
    A: Analyse<V>,
    S: Shelf + Send + 's,
    G: Gate,
    R: Threads + Wait + Sync,
    requires { CanRun S.nodes (length site.now.graph.now.deps) site.now.board.now
        ends.items passes.items }
    ensures all { let a = site.entry.now.analyse.now in IfOk result
        (λ v. IsGathering (A.step a) (A.fits a) site.entry.now.board.now v.items) }
    ensures threads { result ≡ Err Refused.NoThread → 1 < vec_len ends }
{
    let (Some(mut end), Some(own), Some(mut pass)) = (ends.pop(), passes.pop(), passes.pop()) else {
        unreachable!()
    };
    match work_alone(site, &mut end, &mut pass) {
        None => with_others::<E, V, A, S, G, R>(scope, site, ends, passes, own, end, pass),
        Some(ending) if ended_well(ending) => Ok(with_own(passes, own, pass)),
        Some(_) => Err(Refused::NoMemory),
    }
}

/// The same, in a scope of its own.
///
/// # Errors
///
/// `NoMemory` where a worker was refused memory or there was none for the passes; `NoThread` where
/// a thread was refused, or the memory to start it, and none of this was: never with one end.
pub fn in_threads<'x, V, A, S, G, R>(
    site: &'x Site<'x, V, A, G, R>,
    ends: Vec<S>,
    passes: Vec<Pass<V>>,
) -> Result<Vec<Pass<V>>, Refused>
where
    V: Send + Sync + Drop,
    A: Analyse<V>,
    S: Shelf + Send,
    G: Gate,
    R: Threads + Wait + Sync,
    requires { CanRun S.nodes (length site.now.graph.now.deps) site.now.board.now
        ends.items passes.items }
    ensures all { let a = site.entry.now.analyse.now in IfOk result
        (λ v. IsGathering (A.step a) (A.fits a) site.entry.now.board.now v.items) }
    ensures threads { result ≡ Err Refused.NoThread → 1 < vec_len ends }
{
    thread::scope(
        thread::scope_env(),
        site.rt,
        |scope| -> Result<Vec<Pass<V>>, Refused>
            requires { CanRun S.nodes (length site.now.graph.now.deps) site.now.board.now
                ends.items passes.items }
            ensures all { let a = site.entry.now.analyse.now in IfOk result
                (λ v. IsGathering (A.step a) (A.fits a) site.entry.now.board.now v.items) }
            ensures threads { result ≡ Err Refused.NoThread → 1 < vec_len ends }
        { in_scope(scope, site, ends, passes) },
    )
}
