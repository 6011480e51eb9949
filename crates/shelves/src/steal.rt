//! A shelf of deques, one a worker.
ghost use Rattle.std.specs.Prelude.{◌≡◌, ℕ, ◌<◌, length, vec_len, IfOk, IfSome, slice_index_or};
ghost use Rattle.std.specs.Option.{ForSome};
ghost use Rattle.std.specs.List.{All};
ghost use Rattle.crossbeam_deque.specs.Handles.{view, IsPassOf, stealer_deque, worker_view};
ghost use Rattle.shelves.specs.Numbers.{told};

use crate::known::Known;
use crate::shelf::Shelf;
use board::NoMemory;
use crossbeam_deque::protocol::{Lesson, Outcome, Protocol, Split};
use crossbeam_deque::{Pass, Steal, Stealer, Worker};
use edges::NodeId;
use parallel::Workers;
use std::alloc::{AllocError, Global};
use std::marker::{Brand, Model};
use std::sync::Arc;
use std::sync::atomic::{AtomicUsize, Ordering};

/// How many numbers a new deque has room for. It grows as it fills.
const FIRST_ROOM: usize = 64;

/// How often a worker tries at one deque while others take from it at the same moment.
const TRIES: usize = 16;

/// How many of the first nodes an end takes at once, at most.
const LONGEST: usize = 64;

/// Into how many parts for each end the first nodes that are left are cut. An end takes one such
/// part.
const PARTS: usize = 8;

/// The rule of the deques: whoever uses one knows one number of nodes, and what lies in it is below
/// that.
pub struct Numbers;

impl Protocol<usize, Known> for Numbers {
    ghost use Rattle.shelves.specs.Numbers.{unset, IsBelow};

    ghost holds = { IsBelow };

    ghost first = { unset };

    ghost guest = { unset };
}

/// A step that leaves what is known. What it puts or takes is below the number of nodes.
pub struct Moves;

impl Outcome<usize, Known> for Moves {
    ghost use Rattle.shelves.specs.Numbers.{Moved};

    ghost then = { Moved };
}

/// A count of what lies in a deque, which tells nothing of it.
pub struct Counts;

impl Lesson<usize, Known> for Counts {
    ghost use Rattle.std.specs.Prelude.{⊤};

    ghost fact = { λ v xs. ⊤ };
}

/// A number of nodes, which each call picks.
pub trait Count {
    ghost count: { ℕ };
}

impl Count for Brand {
    ghost count = { 0 };
}

/// The first pass of a deque learns the number of nodes, with one more pass.
pub struct Tells<N>(N);

impl<N: Count> Split<Known> for Tells<N> {
    ghost use Rattle.shelves.specs.Numbers.{told};

    ghost left = { λ v. told N.count };

    ghost right = { λ v. told N.count };
}

/// One more pass that knows the same.
pub struct Same;

impl Split<Known> for Same {
    ghost left = { λ v. v };

    ghost right = { λ v. v };
}

type Own = Worker<usize, Global, Known, Numbers>;

type Thief = Stealer<usize, Global, Known, Numbers>;

/// The deque of another worker.
#[derive(Drop)]
pub struct Other {
    thief: Thief,
    pass: Pass<usize, Known>,
    nodes: usize,
    ghost own: { IsPassOf (stealer_deque thief) pass },
    ghost knows: { view pass ≡ told nodes },
}

impl Other {
    /// The first number of the deque; `None` where it was empty, or others were quicker every time.
    fn steal(&mut self) -> Option<usize>
        ensures same { self.new.nodes ≡ self.old.nodes }
        ensures below { IfSome result (λ n. n < self.old.nodes) }
    {
        for _ in 0..TRIES {
            match self.thief.steal_as::<Moves>(&mut self.pass) {
                Steal::Success(n) => return Some(n),
                Steal::Empty => return None,
                Steal::Retry => {}
            }
        }
        None
    }
}

/// The first nodes of a run, of which the ends take some at once, by one count.
#[derive(Drop)]
struct First {
    numbers: Vec<NodeId>,
    taken: AtomicUsize,
    parts: usize,
}

impl First {
    /// How many an end takes at once: ever fewer towards the end, so that no end has many left
    /// while the others have none, where nodes take alike.
    fn length(&self) -> usize {
        let taken = self.taken.load(Ordering::SeqCst);
        let left = self.numbers.len().saturating_sub(taken);
        (left / self.parts.max(1)).min(LONGEST).max(1)
    }

    /// From where to where an end may give them now. No other end gives these.
    fn part(&self) -> (usize, usize) {
        let length = self.length();
        let start = self.taken.fetch_add(length, Ordering::SeqCst);
        (start, start.saturating_add(length))
    }
}

/// Those of the first nodes that one end has taken and not given yet, and the way to more.
#[derive(Drop)]
struct Hand {
    first: Arc<First>,
    next: usize,
    past: usize,
}

impl Hand {
    /// The next of the first nodes; `None` where all were taken.
    fn give(&mut self) -> Option<NodeId> {
        if self.next >= self.past {
            (self.next, self.past) = self.first.part();
        }
        let n = self.first.numbers.get(self.next).copied()?;
        self.next = self.next.saturating_add(1);
        Some(n)
    }

    /// Whether it has none left, and no more can be taken.
    fn is_over(&self) -> bool {
        let all = self.first.numbers.len();
        self.next >= self.past.min(all) && self.first.taken.load(Ordering::SeqCst) >= all
    }
}

/// A worker's end of the shelf: a deque of its own, and the means to steal from those of the other
/// workers. Seen as its number of nodes. No call of it waits.
///
/// Once it has been asked for a number and has found none of the first nodes left, it keeps one
/// that is put while its own deque is empty beside that deque. Its next `take` gives this one, and
/// no other end can. Nor can another give what it has taken of the first nodes of a run.
#[derive(Drop)]
pub struct StealShelf {
    own: Own,
    others: Vec<Other>,
    nodes: usize,
    first: Option<Hand>,
    kept: Option<NodeId>,
    was_asked: bool,
    ghost knows: { worker_view own ≡ told nodes },
    ghost below: { ForSome kept (λ n. n < nodes) },
}

impl StealShelf {
    /// Whether the next number is to be kept: it is then the first that this end has.
    fn keeps_next(&mut self) -> bool
        ensures { self.new ≡ self.old }
    {
        self.was_asked
            && self.first.is_none()
            && self.kept.is_none()
            && self.own.len_as::<Counts>() == 0
    }

    /// One of the first nodes of the run; `None` where all were taken.
    fn take_first(&mut self) -> Option<NodeId>
        ensures same { self.new ≡ self.old }
        ensures node { IfSome result (λ n. n < self.old) }
    {
        let hand = self.first.as_mut()?;
        let given = hand.give();
        if hand.is_over() {
            self.first = None;
        }
        // What was given to all ends isn't known to be of this end's graph, so it is tested.
        match given {
            Some(n) if n.number() < self.nodes => Some(n),
            _ => None,
        }
    }

    /// From now on this end gives these nodes too. With `at_once` it takes some of them now.
    fn give_first(&mut self, first: Arc<First>, at_once: bool)
        ensures { self.new ≡ self.old }
    {
        let (next, past) = if at_once { first.part() } else { (0, 0) };
        self.first = Some(Hand { first, next, past });
    }

    /// From its own deque, or else from the first of the others that has a number.
    fn take_from_deques(&mut self) -> Option<NodeId>
        ensures same { self.new ≡ self.old }
        ensures node { IfSome result (λ n. n < self.old) }
    {
        if let Some(n) = self.own.pop_as::<Moves>() {
            return Some(NodeId::of(n));
        }
        for other in self.others.iter_mut() {
            // What another end knows of its number of nodes isn't known here, so it is tested.
            if let Some(n) = other.steal()
                && n < self.nodes
            {
                return Some(NodeId::of(n));
            }
        }
        None
    }
}

impl Model for StealShelf {
    ghost use Rattle.std.specs.Prelude.{ℕ};

    ghost Value = { ℕ };

    ghost view = { λ s. s.nodes };
}

impl Shelf for StealShelf {
    ghost nodes = { λ s. s };

    fn put(&mut self, n: NodeId) -> Result<(), NoMemory> {
        if self.keeps_next() {
            self.kept = Some(n);
            return Ok(());
        }
        match self.own.push_as::<Moves>(n.number()) {
            Ok(()) => Ok(()),
            Err(_) => Err(NoMemory),
        }
    }

    /// The number that was kept, or else one of the first, or one from its own deque or that of
    /// another.
    fn take(&mut self) -> Option<NodeId> {
        self.was_asked = true;
        if let Some(n) = self.kept.take() {
            return Some(n);
        }
        match self.take_first() {
            Some(n) => Some(n),
            None => self.take_from_deques(),
        }
    }

    fn has_others_first(&self) -> bool {
        self.first.is_some()
    }

    /// Each end takes some of these nodes at once, by one count, and gives them; the last end has
    /// the first of them. Each node is given once.
    fn spread(ends: &mut Vec<StealShelf>, first: &[NodeId], count: usize) -> Result<(), NoMemory> {
        match share_all(ends, first, count) {
            Ok(()) => Ok(()),
            Err(_) => Err(NoMemory),
        }
    }
}

/// Lets all ends take these nodes, some at once, by one count. The last end has some from the
/// beginning: its worker begins before the others, or last where it starts their threads at once.
fn share_all(ends: &mut Vec<StealShelf>, first: &[NodeId], nodes: usize) -> Result<(), AllocError>
    requires { All (λ e. e ≡ nodes) ends.old.items }
    ensures size { vec_len ends.new ≡ vec_len ends.old }
    ensures nodes { All (λ e. e ≡ nodes) ends.new.items }
{
    let _nodes = nodes;
    let alloc = *ends.allocator();
    let numbers = Vec::from_slice(alloc, first)?;
    let taken = AtomicUsize::new(0);
    let parts = ends.len().saturating_mul(PARTS);
    let first = Arc::new(
        alloc,
        First {
            numbers,
            taken,
            parts,
        },
    )?;
    let count = ends.len();
    for i in 0..count {
        ends[i].give_first(Arc::try_clone(&first)?, i + 1 == count);
    }
    Ok(())
}

/// A deque whose first pass was told the number of nodes.
fn open<N: Count>(alloc: Global, nodes: usize) -> Result<Own, AllocError>
    requires { nodes ≡ N.count }
    ensures { IfOk result (λ w. worker_view w ≡ told nodes) }
{
    let mut own = Own::fifo_as(alloc, FIRST_ROOM)?;
    let _second = own.another::<Tells<N>>();
    Ok(own)
}

/// The same, for any number.
fn opened(alloc: Global, nodes: usize) -> Result<Own, AllocError>
    ensures { IfOk result (λ w. worker_view w ≡ told nodes) }
{
    open::<Brand>(alloc, nodes)
}

/// What another worker steals from this deque with.
fn other_end(own: &mut Own, nodes: usize) -> Result<Other, AllocError>
    requires { worker_view own.old ≡ told nodes }
    ensures own { worker_view own.new ≡ worker_view own.old }
    ensures nodes { IfOk result (λ o. o.nodes ≡ nodes) }
{
    let thief = own.stealer()?;
    let pass = own.another::<Same>();
    Ok(Other { thief, pass, nodes })
}

/// What the worker `me` steals from the other workers with, by number after its own.
fn others_of(
    alloc: Global,
    owns: &mut [Own],
    me: usize,
    nodes: usize,
) -> Result<Vec<Other>, AllocError>
    requires me { me < length owns.old }
    requires few { length owns.old < 65 }
    requires told { (k : ℕ) (w : _) → k < length owns.old →
        worker_view (slice_index_or owns.old k w) ≡ told nodes }
    ensures { (k : ℕ) (w : _) → k < length owns.old →
        worker_view (slice_index_or owns.new k w) ≡ told nodes }
{
    let mut others = Vec::new(alloc);
    let count = owns.len();
    let mut at = me;
    for _ in 1..count {
        at = if at + 1 < count { at + 1 } else { 0 };
        others.push(other_end(&mut owns[at], nodes)?)?;
    }
    Ok(others)
}

fn made(own: Own, others: Vec<Other>, nodes: usize) -> StealShelf
    requires { worker_view own ≡ told nodes }
    ensures { result ≡ nodes }
{
    StealShelf {
        own,
        others,
        nodes,
        first: None,
        kept: None,
        was_asked: false,
    }
}

impl StealShelf {
    /// An end for each worker, for a graph with so many nodes.
    ///
    /// # Errors
    ///
    /// `NoMemory` where memory was refused; nothing is kept then.
    pub fn ends(alloc: Global, workers: Workers, nodes: usize) -> Result<Vec<StealShelf>, NoMemory>
        ensures count { IfOk result (λ v. length v.items ≡ workers) }
        ensures within { IfOk result (λ v. (0 < length v.items) × (length v.items < 65)) }
        ensures nodes { IfOk result (λ v. All (λ e. e ≡ nodes) v.items) }
    {
        match StealShelf::ends_of(alloc, workers.get(), nodes) {
            Ok(ends) => Ok(ends),
            Err(_) => Err(NoMemory),
        }
    }

    fn ends_of(alloc: Global, workers: usize, nodes: usize) -> Result<Vec<StealShelf>, AllocError>
        requires { workers < 65 }
        ensures { IfOk result (λ v. (length v.items ≡ workers) × All (λ e. e ≡ nodes) v.items) }
    {
        let mut owns = deques(alloc, workers, nodes)?;
        let mut links = links(alloc, owns.as_mut_slice(), nodes)?;
        let mut ends = Vec::new(alloc);
        for own in owns {
            let Some(others) = links.pop() else {
                unreachable!()
            };
            ends.push(made(own, others, nodes))?;
        }
        Ok(ends)
    }
}

/// So many deques, which were told the number of nodes.
fn deques(alloc: Global, workers: usize, nodes: usize) -> Result<Vec<Own>, AllocError>
    ensures count { IfOk result (λ v. length v.items ≡ workers) }
    ensures told { IfOk result (λ v. (k : ℕ) (w : _) → k < workers →
        worker_view (slice_index_or v.items k w) ≡ told nodes) }
{
    let mut owns = Vec::new(alloc);
    for _ in 0..workers {
        owns.push(opened(alloc, nodes)?)?;
    }
    Ok(owns)
}

/// What each worker steals with, the last worker's first.
fn links(alloc: Global, owns: &mut [Own], nodes: usize) -> Result<Vec<Vec<Other>>, AllocError>
    requires few { length owns.old < 65 }
    requires told { (k : ℕ) (w : _) → k < length owns.old →
        worker_view (slice_index_or owns.old k w) ≡ told nodes }
    ensures count { IfOk result (λ v. length v.items ≡ length owns.old) }
    ensures told { (k : ℕ) (w : _) → k < length owns.old →
        worker_view (slice_index_or owns.new k w) ≡ told nodes }
{
    let mut links = Vec::new(alloc);
    let count = owns.len();
    for i in 0..count {
        links.push(others_of(alloc, owns, count - 1 - i, nodes)?)?;
    }
    Ok(links)
}
