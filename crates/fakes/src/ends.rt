//! Shelves for tests: under a limit of turns, or such that give numbers more than once, lose one,
//! or have no memory for it.
ghost use Rattle.std.specs.Prelude.{◌≡◌, length, IfOk};
ghost use Rattle.std.specs.List.{All};

use board::NoMemory;
use pool::{Gate, NodeId, Shelf};
use std::alloc::{AllocError, Global};
use std::marker::Model;
use std::sync::atomic::{AtomicU64, Ordering};

/// How often in a row a worker finds no new number on a shelf before the shelf gives up.
const TURNS: u64 = 20_000_000;

/// What the ends of a watched shelf saw, together.
#[derive(Drop)]
pub struct Watch {
    turns: u64,
    given: Vec<AtomicU64>,
    ends: AtomicU64,
    given_up: AtomicU64,
    unasked: AtomicU64,
}

impl Watch {
    /// For so many nodes.
    ///
    /// # Errors
    ///
    /// `AllocError` where memory was refused.
    pub fn of(alloc: Global, nodes: usize) -> Result<Watch, AllocError> {
        Watch::with_turns(alloc, nodes, TURNS)
    }

    /// The same, but ends give up after so many looks in a row that bring no new number.
    ///
    /// # Errors
    ///
    /// `AllocError` where memory was refused.
    pub fn with_turns(alloc: Global, nodes: usize, turns: u64) -> Result<Watch, AllocError> {
        let mut given = Vec::with_capacity(alloc, nodes)?;
        for _ in 0..nodes {
            given.push(AtomicU64::new(0))?;
        }
        Ok(Watch {
            turns,
            given,
            ends: AtomicU64::new(0),
            given_up: AtomicU64::new(0),
            unasked: AtomicU64::new(0),
        })
    }

    /// Whether no end gave up, and each node that was worked on was given before.
    pub fn is_fine(&self) -> bool {
        self.given_up.load(Ordering::SeqCst) == 0 && self.unasked.load(Ordering::SeqCst) == 0
    }

    /// At how many ends a number was asked for.
    pub fn ends(&self) -> u64 {
        self.ends.load(Ordering::SeqCst)
    }

    fn has_given(&self, n: NodeId) -> bool {
        match self.given.get(n.number()) {
            Some(times) => times.load(Ordering::SeqCst) > 0,
            None => false,
        }
    }

    /// The node was given. Whether that was the first time.
    fn note(&self, n: NodeId) -> bool {
        match self.given.get(n.number()) {
            Some(times) => times.fetch_add(1, Ordering::SeqCst) == 0,
            None => false,
        }
    }
}

/// As a gate, it sees whether the shelf gave the nodes that are worked on.
impl Gate for Watch {
    fn enter(&self, n: NodeId) {
        if !self.has_given(n) {
            self.unasked.store(1, Ordering::SeqCst);
        }
    }

    fn leave(&self, _n: NodeId) {}
}

/// An end of a shelf that is watched. Where it has no new number for so long that one must be lost,
/// it gives up, and gives all numbers in turn: so the run ends, and the test can fail. A number
/// that was given before is none that could be lost.
#[derive(Drop)]
pub struct Watched<'w, S: Shelf> {
    inner: S,
    nodes: usize,
    watch: &'w Watch,
    began: bool,
    in_vain: u64,
    next: usize,
    ghost same: { S.nodes inner ≡ nodes },
}

impl<'w, S: Shelf> Model for Watched<'w, S> {
    ghost use Rattle.std.specs.Prelude.{ℕ};

    ghost Value = { ℕ };

    ghost view = { λ s. s.nodes };
}

impl<'w, S: Shelf> Shelf for Watched<'w, S> {
    ghost nodes = { λ s. s };

    fn put(&mut self, n: NodeId) -> Result<(), NoMemory> {
        self.inner.put(n)
    }

    fn take(&mut self) -> Option<NodeId> {
        if !self.began {
            self.began = true;
            self.watch.ends.fetch_add(1, Ordering::SeqCst);
        }
        let found = self.inner.take();
        if let Some(n) = found
            && self.watch.note(n)
        {
            self.in_vain = 0;
            return found;
        }
        self.in_vain = self.in_vain.saturating_add(1);
        if self.in_vain < self.watch.turns || self.nodes == 0 {
            return found;
        }
        self.watch.given_up.store(1, Ordering::SeqCst);
        self.next = if self.next < self.nodes - 1 {
            self.next + 1
        } else {
            0
        };
        Some(NodeId::of(self.next))
    }
}

/// An end that is watched.
fn under_watch<S: Shelf>(inner: S, nodes: usize, watch: &Watch) -> Watched<'_, S>
    requires { S.nodes inner ≡ nodes }
    ensures { result ≡ nodes }
{
    Watched {
        inner,
        nodes,
        watch,
        began: false,
        in_vain: 0,
        next: 0,
    }
}

/// The same ends, watched.
///
/// # Errors
///
/// `AllocError` where memory was refused.
pub fn all_watched<S: Shelf>(
    alloc: Global,
    ends: Vec<S>,
    nodes: usize,
    watch: &Watch,
) -> Result<Vec<Watched<'_, S>>, AllocError>
    requires { All (λ e. S.nodes e ≡ nodes) ends.items }
    ensures count { IfOk result (λ v. length v.items ≡ length ends.items) }
    ensures nodes { IfOk result (λ v. All (λ e. e ≡ nodes) v.items) }
{
    let mut all = Vec::new(alloc);
    for end in ends {
        all.push(under_watch(end, nodes, watch))?;
    }
    Ok(all)
}

/// An end that gives each of its numbers twice, and node 0 at each third turn.
#[derive(Drop)]
pub struct Twice<S: Shelf> {
    inner: S,
    nodes: usize,
    last: Option<NodeId>,
    turns: u64,
    ghost same: { S.nodes inner ≡ nodes },
}

impl<S: Shelf> Model for Twice<S> {
    ghost use Rattle.std.specs.Prelude.{ℕ};

    ghost Value = { ℕ };

    ghost view = { λ s. s.nodes };
}

impl<S: Shelf> Shelf for Twice<S> {
    ghost nodes = { λ s. s };

    fn put(&mut self, n: NodeId) -> Result<(), NoMemory> {
        self.inner.put(n)
    }

    fn take(&mut self) -> Option<NodeId> {
        self.turns = self.turns.wrapping_add(1);
        if self.turns % 3 == 0 && self.nodes > 0 {
            return Some(NodeId::of(0));
        }
        if let Some(n) = self.last.take()
            && n.number() < self.nodes
        {
            return Some(n);
        }
        let n = self.inner.take()?;
        self.last = Some(n);
        Some(n)
    }
}

fn doubled<S: Shelf>(inner: S, nodes: usize) -> Twice<S>
    requires { S.nodes inner ≡ nodes }
    ensures { result ≡ nodes }
{
    Twice {
        inner,
        nodes,
        last: None,
        turns: 0,
    }
}

/// The same ends, but each gives its numbers twice.
///
/// # Errors
///
/// `AllocError` where memory was refused.
pub fn all_twice<S: Shelf>(
    alloc: Global,
    ends: Vec<S>,
    nodes: usize,
) -> Result<Vec<Twice<S>>, AllocError>
    requires { All (λ e. S.nodes e ≡ nodes) ends.items }
    ensures count { IfOk result (λ v. length v.items ≡ length ends.items) }
    ensures nodes { IfOk result (λ v. All (λ e. e ≡ nodes) v.items) }
{
    let mut all = Vec::new(alloc);
    for end in ends {
        all.push(doubled(end, nodes))?;
    }
    Ok(all)
}

/// What an end does with one number that it is to put on the shelf.
#[derive(Clone, Copy, PartialEq, Eq)]
pub enum Fault {
    /// It loses the number, and says nothing.
    Loses,
    /// It says that there is no memory for it.
    Refuses,
}

/// An end with a fault at one number.
#[derive(Drop)]
pub struct Faulty<S: Shelf> {
    inner: S,
    nodes: usize,
    at: usize,
    fault: Fault,
    ghost same: { S.nodes inner ≡ nodes },
}

impl<S: Shelf> Model for Faulty<S> {
    ghost use Rattle.std.specs.Prelude.{ℕ};

    ghost Value = { ℕ };

    ghost view = { λ s. s.nodes };
}

impl<S: Shelf> Shelf for Faulty<S> {
    ghost nodes = { λ s. s };

    fn put(&mut self, n: NodeId) -> Result<(), NoMemory> {
        if n.number() != self.at {
            return self.inner.put(n);
        }
        match self.fault {
            Fault::Loses => Ok(()),
            Fault::Refuses => Err(NoMemory),
        }
    }

    fn take(&mut self) -> Option<NodeId> {
        self.inner.take()
    }
}

fn at_fault<S: Shelf>(inner: S, nodes: usize, at: usize, fault: Fault) -> Faulty<S>
    requires { S.nodes inner ≡ nodes }
    ensures { result ≡ nodes }
{
    Faulty {
        inner,
        nodes,
        at,
        fault,
    }
}

/// The same ends, but with a fault at one number.
///
/// # Errors
///
/// `AllocError` where memory was refused.
pub fn all_faulty<S: Shelf>(
    alloc: Global,
    ends: Vec<S>,
    nodes: usize,
    at: usize,
    fault: Fault,
) -> Result<Vec<Faulty<S>>, AllocError>
    requires { All (λ e. S.nodes e ≡ nodes) ends.items }
    ensures count { IfOk result (λ v. length v.items ≡ length ends.items) }
    ensures nodes { IfOk result (λ v. All (λ e. e ≡ nodes) v.items) }
{
    let mut all = Vec::new(alloc);
    for end in ends {
        all.push(at_fault(end, nodes, at, fault))?;
    }
    Ok(all)
}
