//! How a worker that finds no node rests.
use crossbeam_utils::Backoff;
use crossbeam_utils::sync::{EventCount, Key};
use std::sync::Wait;
use std::sync::atomic::{AtomicBool, AtomicU64, Ordering};
use std::thread;

/// Where the workers of a run sleep while there is nothing for them.
///
/// They are woken as nodes come on the shelf, and all of them once no node is left or the halt is
/// set. One worker stays awake whatever happens, and goes on looking: so a run never stands still
/// because all workers sleep, with whatever shelf. A worker that is alone never sleeps, and where
/// it is not, all start: so each counts as awake from the beginning.
///
/// They are woken one after the other: once a worker was called for, nobody calls another until one
/// has told that it will sleep, and looks once more before it does, or has found a node after that,
/// and then it calls the next.
#[derive(Drop)]
pub struct Idle {
    sleepers: EventCount,
    awake: AtomicU64,
    is_called: AtomicBool,
    is_over: AtomicBool,
}

impl Idle {
    /// For so many workers, all of them awake.
    pub fn of(workers: u64) -> Idle {
        Idle {
            sleepers: EventCount::new(),
            awake: AtomicU64::new(workers),
            is_called: AtomicBool::new(false),
            is_over: AtomicBool::new(false),
        }
    }

    /// Wakes a worker, if one sleeps and none was called for that hasn't answered. Call it after a
    /// node came on the shelf.
    pub fn wake_one(&self) {
        if !self.is_called.load(Ordering::SeqCst) {
            self.is_called.store(true, Ordering::SeqCst);
            self.sleepers.notify_one();
        }
    }

    /// A worker answers: it has found a node, or looks once more before it sleeps. The next node
    /// calls for another.
    fn answer(&self) {
        self.is_called.store(false, Ordering::SeqCst);
    }

    /// The run is over: tells so, and wakes all workers. Call it after the halt was set, or once no
    /// node is left.
    pub fn call_off(&self) {
        self.is_over.store(true, Ordering::SeqCst);
        self.sleepers.notify_all();
    }

    /// Whether the run was called off. So a worker that has nodes need not look at the words of the
    /// board that all workers change.
    pub fn is_over(&self) -> bool {
        self.is_over.load(Ordering::SeqCst)
    }

    /// Sleeps until there is something new, unless all other workers sleep.
    fn sleep<R: Wait>(&self, rt: &R, key: Key<'_>) {
        if self.awake.fetch_sub(1, Ordering::SeqCst) > 1 {
            key.wait(rt);
        } else {
            drop(key);
            thread::yield_now();
        }
        self.awake.fetch_add(1, Ordering::SeqCst);
    }
}

/// The rest of one worker that finds no node: it looks again and again, ever less often, and then
/// sleeps.
#[derive(Drop)]
pub struct Rest<'i> {
    idle: &'i Idle,
    backoff: Backoff,
    key: Option<Key<'i>>,
    has_announced: bool,
}

impl<'i> Rest<'i> {
    /// The worker is not at rest.
    pub fn new(idle: &'i Idle) -> Rest<'i> {
        Rest {
            idle,
            backoff: Backoff::new(),
            key: None,
            has_announced: false,
        }
    }

    /// The worker found no node, and is to look again afterwards. It announces that it will sleep
    /// one turn before it does: if it is called for in between, it doesn't sleep.
    pub fn turn<R: Wait>(&mut self, rt: &R) {
        if !self.backoff.is_completed() {
            self.backoff.snooze();
            return;
        }
        match self.key.take() {
            Some(key) => self.idle.sleep(rt, key),
            None => {
                self.key = Some(self.idle.sleepers.prepare_wait());
                self.has_announced = true;
                self.idle.answer();
            }
        }
    }

    /// The worker found a node that it can't start, and is to look again afterwards.
    pub fn pause(&self) {
        self.backoff.snooze();
    }

    /// The worker has a node. If it may have been called for there can be more, for which it wakes
    /// another.
    pub fn end(&mut self) {
        self.backoff.reset();
        self.key = None;
        if self.has_announced {
            self.has_announced = false;
            self.idle.answer();
            self.idle.wake_one();
        }
    }
}
