//! Gates that hold workers up, or count what they do.
use pool::{Gate, NodeId};
use std::alloc::{AllocError, Global};
use std::sync::atomic::{AtomicU64, Ordering};
use std::thread;

/// How often a worker looks at a gate before it gives up.
const TURNS: u64 = 20_000_000;

/// Holds workers up at the nodes from `low` to `high`, until as many of these nodes as are wanted
/// were entered. A worker that looked 20 million times in vain gives up.
#[derive(Drop)]
pub struct Meeting {
    low: usize,
    high: usize,
    wanted: u64,
    entered: AtomicU64,
    given_up: AtomicU64,
}

impl Meeting {
    /// Nobody has entered yet.
    pub fn of(low: usize, high: usize, wanted: u64) -> Meeting {
        Meeting {
            low,
            high,
            wanted,
            entered: AtomicU64::new(0),
            given_up: AtomicU64::new(0),
        }
    }

    /// Whether just those who were wanted met, and nobody gave up.
    pub fn met(&self) -> bool {
        self.entered.load(Ordering::SeqCst) == self.wanted
            && self.given_up.load(Ordering::SeqCst) == 0
    }
}

impl Gate for Meeting {
    fn enter(&self, n: NodeId) {
        if n.number() < self.low || n.number() > self.high {
            return;
        }
        self.entered.fetch_add(1, Ordering::SeqCst);
        for _ in 0..TURNS {
            if self.entered.load(Ordering::SeqCst) >= self.wanted {
                return;
            }
            thread::yield_now();
        }
        self.given_up.store(1, Ordering::SeqCst);
    }

    fn leave(&self, _n: NodeId) {}
}

/// Counts for each node how often it was entered and left.
#[derive(Drop)]
pub struct Counting {
    entered: Vec<AtomicU64>,
    left: Vec<AtomicU64>,
}

impl Counting {
    /// None of so many nodes was entered or left yet.
    ///
    /// # Errors
    ///
    /// `AllocError` where memory was refused.
    pub fn of(alloc: Global, nodes: usize) -> Result<Counting, AllocError> {
        Ok(Counting {
            entered: zeros(alloc, nodes)?,
            left: zeros(alloc, nodes)?,
        })
    }

    /// Whether each node was entered and left once.
    pub fn once(&self) -> bool {
        self.once_below(self.entered.len())
    }

    /// Whether each of the first `count` nodes was entered and left once, and no other ever was.
    pub fn once_below(&self, count: usize) -> bool {
        are_one_below(&self.entered, count) && are_one_below(&self.left, count)
    }
}

impl Gate for Counting {
    fn enter(&self, n: NodeId) {
        count(self.entered.as_slice(), n);
    }

    fn leave(&self, n: NodeId) {
        count(self.left.as_slice(), n);
    }
}

/// One more for the node, if it has a place.
fn count(counts: &[AtomicU64], n: NodeId) {
    if let Some(count) = counts.get(n.number()) {
        count.fetch_add(1, Ordering::SeqCst);
    }
}

fn zeros(alloc: Global, nodes: usize) -> Result<Vec<AtomicU64>, AllocError> {
    let mut all = Vec::new(alloc);
    for _ in 0..nodes {
        all.push(AtomicU64::new(0))?;
    }
    Ok(all)
}

/// Whether the first so many counts are 1, and the others 0.
fn are_one_below(counts: &[AtomicU64], ones: usize) -> bool {
    for (n, count) in counts.iter().enumerate() {
        let wanted = if n < ones { 1 } else { 0 };
        if count.load(Ordering::SeqCst) != wanted {
            return false;
        }
    }
    true
}

/// Two gates, one after the other.
#[derive(Drop)]
pub struct Both<'g, G, H> {
    pub first: &'g G,
    pub second: &'g H,
}

impl<'g, G: Gate, H: Gate> Gate for Both<'g, G, H> {
    fn enter(&self, n: NodeId) {
        self.first.enter(n);
        self.second.enter(n);
    }

    fn leave(&self, n: NodeId) {
        self.first.leave(n);
        self.second.leave(n);
    }
}
