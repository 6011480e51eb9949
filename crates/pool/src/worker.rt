//! One worker: what it does with a node, and its turns until no node is left.
ghost use Rattle.std.specs.Prelude.{◌≡◌, ◌≢◌, ◌<◌, ◌≤◌, ℕ, length, map, take, Some, None};
ghost use Rattle.std.specs.Prelude.{true, false, IfOk, IfErr, IfSome, IfNone, OnOk, MatchOption};
ghost use Rattle.std.specs.Bool.{OnTrue};
ghost use Rattle.board.specs.Journal.{times, deps};
ghost use Rattle.board.specs.Views.{IsPassOf, IsHeld, IsUnsent, Keeps, knows};
ghost use Rattle.edges.specs.Rows.{has};
ghost use Rattle.pool.specs.Settled.{Knows, Stepped, IsSound};
ghost use Rattle.pool.specs.Ends.{StopSays, EndingSays, OnlyLooked, times_sent};

use crate::analyse::Analyse;
use crate::gate::Gate;
use crate::idle::{Idle, Rest};
use board::{Board, NoMemory, Pass, Published, Readiness};
use crossbeam_utils::Backoff;
use edges::{Edges, NodeId};
use shelves::Shelf;
use std::alloc::Global;
use std::sync::Wait;

/// What all workers of a run share. The board is that of the graph's nodes that are not cyclic, and
/// `analyse` has all its nodes.
#[derive(Drop)]
pub struct Site<'s, V, A: Analyse<V>, G, R> {
    pub rt: &'s R,
    pub alloc: Global,
    pub board: &'s Board<V>,
    pub graph: &'s Edges,
    pub analyse: &'s A,
    pub gate: &'s G,
    pub idle: &'s Idle,
    ghost plan: { board.now.plan ≡ take graph.now.acyclic graph.now.deps },
    ghost nodes: { A.nodes analyse.now ≡ length graph.now.deps },
}

/// Why a worker gave up on a node.
#[derive(Clone, Copy)]
pub enum Stop {
    /// It saw the halt while it waited for a dependency's value.
    Halted,
    /// It was refused memory.
    NoMemory,
}

/// How a worker ended.
#[derive(Clone, Copy)]
pub enum Ending {
    /// It saw that no node was left.
    Done,
    /// It saw the halt.
    Halted,
    /// It was refused memory, and set the halt.
    NoMemory,
}

/// The value of a node that another worker may still be publishing; `None` where the halt was seen.
fn wait_for<'b, V, R: Wait>(
    rt: &R,
    board: &'b Board<V>,
    pass: &mut Pass<V>,
    n: usize,
) -> Option<&'b V>
    requires pass { IsPassOf board.now pass.old }
    requires node { n < length board.now.plan }
    ensures of { IsPassOf board.entry.now pass.new }
    ensures keeps { Keeps (knows pass.old) (knows pass.new) }
    ensures others { (k : ℕ) → k ≢ n → knows pass.new k ≡ knows pass.old k }
    ensures stays { OnlyLooked pass.old.journal pass.new.journal }
    ensures some { IfSome result (λ v. knows pass.new n ≡ Some v.now) }
    ensures none { IfNone result (pass.new.journal.saw ≡ true) }
{
    let backoff = Backoff::new();
    for _ in rt.forever() {
        if let Some(value) = board.read(pass, n) {
            return Some(value);
        }
        if board.halted(pass) {
            return None;
        }
        backoff.snooze();
    }
    unreachable!()
}

/// The value of a node that was started, which is nearly always there; `None` where the halt was
/// seen.
fn value_of<'b, V, R: Wait>(
    rt: &R,
    board: &'b Board<V>,
    pass: &mut Pass<V>,
    n: usize,
) -> Option<&'b V>
    requires pass { IsPassOf board.now pass.old }
    requires node { n < length board.now.plan }
    ensures of { IsPassOf board.entry.now pass.new }
    ensures keeps { Keeps (knows pass.old) (knows pass.new) }
    ensures others { (k : ℕ) → k ≢ n → knows pass.new k ≡ knows pass.old k }
    ensures stays { OnlyLooked pass.old.journal pass.new.journal }
    ensures some { IfSome result (λ v. knows pass.new n ≡ Some v.now) }
    ensures none { IfNone result (pass.new.journal.saw ≡ true) }
{
    match board.read(pass, n) {
        Some(value) => Some(value),
        None => wait_for(rt, board, pass, n),
    }
}

/// The values of the nodes on which `n` depends, in their order, in place of what `values` had.
fn read_all<'b, V, R: Wait>(
    rt: &R,
    board: &'b Board<V>,
    pass: &mut Pass<V>,
    list: &[NodeId],
    n: usize,
    values: &mut Vec<&'b V>,
) -> Result<(), Stop>
    requires pass { IsPassOf board.now pass.old }
    requires node { n < length board.now.plan }
    requires before { (d : ℕ) → has list.now d ≡ true → d < n }
    ensures of { IsPassOf board.entry.now pass.new }
    ensures keeps { Keeps (knows pass.old) (knows pass.new) }
    ensures fresh { knows pass.new n ≡ knows pass.old n }
    ensures stays { OnlyLooked pass.old.journal pass.new.journal }
    ensures ok { OnOk result
        (Knows (knows pass.new) list.now (map (λ r. r.now) values.new.items)) }
    ensures err { IfErr result (λ e. StopSays e pass.new.journal) }
{
    values.clear();
    let Ok(()) = values.try_reserve(list.len()) else {
        return Err(Stop::NoMemory);
    };
    for d in list {
        let Some(value) = value_of(rt, board, pass, d.number()) else {
            return Err(Stop::Halted);
        };
        values.push_reserved(value);
    }
    Ok(())
}

/// The outcome of a node that this pass has started, from those of its dependencies.
fn outcome_of<'s, V, A: Analyse<V>, G: Gate, R: Wait>(
    site: &Site<'s, V, A, G, R>,
    pass: &mut Pass<V>,
    values: &mut Vec<&'s V>,
    n: usize,
) -> Result<V, Stop>
    requires node { n < length site.now.board.now.plan }
    requires pass { let a = site.now.analyse.now in
        IsSound (A.step a) (A.fits a) site.now.board.now pass.old }
    ensures pass { let a = site.now.analyse.now in
        IsSound (A.step a) (A.fits a) site.now.board.now pass.new }
    ensures fresh { knows pass.new n ≡ knows pass.old n }
    ensures stays { OnlyLooked pass.old.journal pass.new.journal }
    ensures ok { let a = site.now.analyse.now in IfOk result
        (λ v. Stepped (A.step a) (A.fits a) site.now.board.now.plan (knows pass.new) n v) }
    ensures err { IfErr result (λ e. StopSays e pass.new.journal) }
{
    let node = NodeId::of(n);
    let list = site.graph.deps(node);
    read_all(site.rt, site.board, pass, list, n, values)?;
    site.gate.enter(node);
    match site
        .analyse
        .analyse_one(site.alloc, node, values.as_slice())
    {
        Ok(value) => Ok(value),
        Err(_) => Err(Stop::NoMemory),
    }
}

/// Delivers a published node to one user, and puts that on the shelf if it can be started now. True
/// says that it can. A cyclic user runs on no board, and is left out.
fn deliver_one<V, S: Shelf>(
    board: &Board<V>,
    acyclic: usize,
    shelf: &mut S,
    pass: &mut Pass<V>,
    published: &mut Published,
    user: NodeId,
) -> Result<bool, NoMemory>
    requires nodes { (acyclic ≡ length board.now.plan) × (acyclic ≤ S.nodes shelf.old) }
    requires pass { IsPassOf board.now pass.old }
    requires held { IsHeld pass.old published.old.node }
    requires first { times_sent pass.old published.old.node user ≡ 0 }
    requires edge { user < acyclic → 0 < times published.old.node (deps board.now.plan user) }
    ensures of { IsPassOf board.now pass.new }
    ensures shelf { S.nodes shelf.new ≡ S.nodes shelf.old }
    ensures same { published.new ≡ published.old }
    ensures held { IsHeld pass.new published.old.node }
    ensures memory { pass.new.memory ≡ pass.old.memory }
    ensures finished { pass.new.journal.finished ≡ pass.old.journal.finished }
    ensures set { pass.new.journal.set ≡ pass.old.journal.set }
    ensures sent { user < acyclic → 0 < times_sent pass.new published.old.node user }
    ensures others { let n = published.old.node in
        (u : ℕ) → u ≢ user → times_sent pass.new n u ≡ times_sent pass.old n u }
{
    if user.number() >= acyclic {
        return Ok(false);
    }
    match board.deliver(pass, published, user.number()) {
        Readiness::Ready => shelf.put(user)?,
        Readiness::Waiting => return Ok(false),
    }
    Ok(true)
}

/// Delivers a published node to all its users, and puts those that can be started now on the shelf.
///
/// For each of these but one it wakes a worker: the one is for this worker, which looks next. Where
/// its shelf gives others before, it wakes one for each. True says that there is one for another
/// worker.
fn deliver_all<V, S: Shelf>(
    board: &Board<V>,
    graph: &Edges,
    idle: &Idle,
    shelf: &mut S,
    pass: &mut Pass<V>,
    published: &mut Published,
    n: usize,
) -> Result<bool, NoMemory>
    requires graph { board.now.plan ≡ take graph.now.acyclic graph.now.deps }
    requires shelf { S.nodes shelf.old ≡ length graph.now.deps }
    requires pass { IsPassOf board.now pass.old }
    requires node { (n < length board.now.plan) × (published.old.node ≡ n) }
    requires held { IsHeld pass.old n × IsUnsent pass.old n }
    ensures of { IsPassOf board.now pass.new }
    ensures shelf { S.nodes shelf.new ≡ S.nodes shelf.old }
    ensures same { published.new ≡ published.old }
    ensures held { IsHeld pass.new n }
    ensures memory { pass.new.memory ≡ pass.old.memory }
    ensures finished { pass.new.journal.finished ≡ pass.old.journal.finished }
    ensures set { pass.new.journal.set ≡ pass.old.journal.set }
    ensures whole { IfOk result
        (λ _. (u : ℕ) → 0 < times n (deps board.now.plan u) → 0 < times_sent pass.new n u) }
{
    let acyclic = graph.acyclic();
    let users = graph.users(NodeId::of(n));
    let mut has_next = shelf.has_others_first();
    let mut has_more = false;
    for user in users {
        if deliver_one(board, acyclic, shelf, pass, published, *user)? {
            if has_next {
                idle.wake_one();
                has_more = true;
            }
            has_next = true;
        }
    }
    Ok(has_more)
}

/// Publishes the outcome of a node that this pass has started, delivers it to all users, and
/// finishes the node. True says that a node was made ready for another worker.
fn complete<V: Drop, A: Analyse<V>, S: Shelf, G: Gate, R: Wait>(
    site: &Site<V, A, G, R>,
    shelf: &mut S,
    pass: &mut Pass<V>,
    n: usize,
    value: V,
) -> Result<bool, NoMemory>
    requires shelf { S.nodes shelf.old ≡ length site.now.graph.now.deps }
    requires node { n < length site.now.board.now.plan }
    requires started { (0 < times n pass.old.journal.started) × (knows pass.old n ≡ None) }
    requires pass { let a = site.now.analyse.now in
        IsSound (A.step a) (A.fits a) site.now.board.now pass.old }
    requires stepped { let a = site.now.analyse.now in
        Stepped (A.step a) (A.fits a) site.now.board.now.plan (knows pass.old) n value }
    ensures shelf { S.nodes shelf.new ≡ S.nodes shelf.old }
    ensures pass { let a = site.now.analyse.now in
        IsSound (A.step a) (A.fits a) site.now.board.now pass.new }
    ensures set { pass.new.journal.set ≡ pass.old.journal.set }
{
    match site.board.publish(pass, n, value) {
        Ok(mut published) => {
            site.gate.leave(NodeId::of(n));
            let has_more = deliver_all(
                site.board,
                site.graph,
                site.idle,
                shelf,
                pass,
                &mut published,
                n,
            )?;
            site.board.finish(pass, published);
            Ok(has_more)
        }
        Err((value, refused)) => {
            drop(value);
            Err(refused)
        }
    }
}

/// The whole work on a node that this pass has started. True says that it made a node ready for
/// another worker.
fn work<'s, V: Drop, A: Analyse<V>, S: Shelf, G: Gate, R: Wait>(
    site: &Site<'s, V, A, G, R>,
    shelf: &mut S,
    pass: &mut Pass<V>,
    values: &mut Vec<&'s V>,
    n: usize,
) -> Result<bool, Stop>
    requires shelf { S.nodes shelf.old ≡ length site.now.graph.now.deps }
    requires node { n < length site.now.board.now.plan }
    requires started { (0 < times n pass.old.journal.started) × (knows pass.old n ≡ None) }
    requires pass { let a = site.now.analyse.now in
        IsSound (A.step a) (A.fits a) site.now.board.now pass.old }
    ensures shelf { S.nodes shelf.new ≡ S.nodes shelf.old }
    ensures pass { let a = site.now.analyse.now in
        IsSound (A.step a) (A.fits a) site.now.board.now pass.new }
    ensures set { pass.new.journal.set ≡ pass.old.journal.set }
    ensures err { IfErr result (λ e. StopSays e pass.new.journal) }
{
    let value = outcome_of(site, pass, values, n)?;
    match complete(site, shelf, pass, n, value) {
        Ok(has_more) => Ok(has_more),
        Err(_) => Err(Stop::NoMemory),
    }
}

/// Starts a node of the graph, if it is not cyclic and can be started now. True says that this pass
/// has it.
fn begin<V, A: Analyse<V>, G: Gate, R: Wait>(
    site: &Site<V, A, G, R>,
    pass: &mut Pass<V>,
    n: usize,
) -> bool
    requires pass { let a = site.now.analyse.now in
        IsSound (A.step a) (A.fits a) site.now.board.now pass.old }
    ensures pass { let a = site.now.analyse.now in
        IsSound (A.step a) (A.fits a) site.now.board.now pass.new }
    ensures set { pass.new.journal.set ≡ pass.old.journal.set }
    ensures started { OnTrue result ((n < length site.now.board.now.plan)
        × (0 < times n pass.new.journal.started) × (knows pass.new n ≡ None)) }
{
    if n >= site.graph.acyclic() {
        return false;
    }
    match site.board.start(pass, n) {
        Ok(()) => true,
        Err(_) => false,
    }
}

/// How the worker ends: it sees that no node is left, or the halt. `None` where it is to go on.
fn seen_end<V, A: Analyse<V>, G, R>(site: &Site<V, A, G, R>, pass: &mut Pass<V>) -> Option<Ending>
    requires pass { let a = site.now.analyse.now in
        IsSound (A.step a) (A.fits a) site.now.board.now pass.old }
    requires unset { pass.old.journal.set ≡ false }
    ensures pass { let a = site.now.analyse.now in
        IsSound (A.step a) (A.fits a) site.now.board.now pass.new }
    ensures unset { pass.new.journal.set ≡ false }
    ensures ending { IfSome result (λ e. EndingSays e pass.new.journal) }
{
    if site.board.left(pass) == 0 {
        site.idle.call_off();
        return Some(Ending::Done);
    }
    if site.board.halted(pass) {
        return Some(Ending::Halted);
    }
    None
}

/// Takes nodes from the shelf and works on those that can be started, until no node is left, the
/// halt is seen, or memory is refused. In the last case it sets the halt.
///
/// A worker that is alone also ends its turns, with `None`, once there may be something for others:
/// it made more than one node ready, or found none that it could start.
///
/// It asks the board for an end where it found no node, or where another has seen or set one.
pub fn take_turns<V: Drop, A: Analyse<V>, S: Shelf, G: Gate, R: Wait>(
    site: &Site<V, A, G, R>,
    shelf: &mut S,
    pass: &mut Pass<V>,
    is_alone: bool,
) -> Option<Ending>
    requires shelf { S.nodes shelf.old ≡ length site.now.graph.now.deps }
    requires pass { let a = site.now.analyse.now in
        IsSound (A.step a) (A.fits a) site.now.board.now pass.old }
    requires unset { pass.old.journal.set ≡ false }
    ensures shelf { S.nodes shelf.new ≡ length site.now.graph.now.deps }
    ensures pass { let a = site.now.analyse.now in
        IsSound (A.step a) (A.fits a) site.now.board.now pass.new }
    ensures ending { MatchOption result
        ((is_alone ≡ true) × (pass.new.journal.set ≡ false))
        (λ e. EndingSays e pass.new.journal) }
{
    let mut rest = Rest::new(site.idle);
    let mut values = Vec::new(site.alloc);
    let mut is_busy = true;
    for _ in site.rt.forever() {
        if !is_busy || site.idle.is_over() {
            if let Some(ending) = seen_end(site, pass) {
                return Some(ending);
            }
            if is_alone {
                return None;
            }
        }
        is_busy = false;
        let Some(node) = shelf.take() else {
            rest.turn(site.rt);
            continue;
        };
        let n = node.number();
        if !begin(site, pass, n) {
            rest.pause();
            continue;
        }
        is_busy = true;
        rest.end();
        match work(site, shelf, pass, &mut values, n) {
            Ok(has_more) => {
                if is_alone && has_more {
                    return None;
                }
            }
            Err(Stop::Halted) => return Some(Ending::Halted),
            Err(Stop::NoMemory) => {
                site.board.halt(pass);
                site.idle.call_off();
                return Some(Ending::NoMemory);
            }
        }
    }
    unreachable!()
}

/// All turns of a worker in a thread of its own, beside others.
pub fn run_worker<V: Drop, A: Analyse<V>, S: Shelf, G: Gate, R: Wait>(
    site: &Site<V, A, G, R>,
    mut shelf: S,
    mut pass: Pass<V>,
) -> (Pass<V>, Ending)
    requires shelf { S.nodes shelf ≡ length site.now.graph.now.deps }
    requires pass { let a = site.now.analyse.now in
        IsSound (A.step a) (A.fits a) site.now.board.now pass }
    requires unset { pass.journal.set ≡ false }
    ensures pass { let a = site.now.analyse.now in
        IsSound (A.step a) (A.fits a) site.now.board.now result.0 }
    ensures ending { EndingSays result.1 result.0.journal }
{
    match take_turns(site, &mut shelf, &mut pass, false) {
        Some(ending) => (pass, ending),
        None => unreachable!(),
    }
}
