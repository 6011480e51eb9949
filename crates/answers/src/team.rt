//! Workers: how many, and where they find the labels that can be analysed.
ghost use Rattle.std.specs.Prelude.{◌≡◌, ◌<◌, IfOk, vec_len};
ghost use Rattle.pool.specs.Ends.{AreEnds};

use crate::letting_go::Leftovers;
use parallel::Workers;
use pool::{LockShelf, NoMemory, Shelf, StealShelf};
use std::alloc::Global;
use std::sync::Wait;

/// Makes a shelf, from which workers take the labels whose dependencies are done.
pub trait Shelving<S: Shelf> {
    /// As many ends of one shelf as there are workers, for a graph of so many nodes.
    ///
    /// # Errors
    ///
    /// `NoMemory` where memory was refused; nothing is kept then.
    fn ends(&self, alloc: Global, workers: Workers, nodes: usize) -> Result<Vec<S>, NoMemory>
        ensures count { IfOk result (λ v. vec_len v ≡ workers) }
        ensures within { IfOk result (λ v. (0 < vec_len v) × (vec_len v < 65)) }
        ensures nodes { IfOk result (λ v. AreEnds S.nodes nodes v.items) };
}

/// A deque for each worker, from which the others steal.
#[derive(Clone, Copy, Debug)]
pub struct Deques;

impl Shelving<StealShelf> for Deques {
    fn ends(
        &self,
        alloc: Global,
        workers: Workers,
        nodes: usize,
    ) -> Result<Vec<StealShelf>, NoMemory> {
        StealShelf::ends(alloc, workers, nodes)
    }
}

/// One queue under a lock, for which workers wait.
#[derive(Clone, Copy)]
pub struct OneQueue<'r, R> {
    /// What makes a worker wait for the lock, and wakes it.
    pub rt: &'r R,
}

impl<'r, R: Wait> Shelving<LockShelf<'r, R>> for OneQueue<'r, R> {
    fn ends(
        &self,
        alloc: Global,
        workers: Workers,
        nodes: usize,
    ) -> Result<Vec<LockShelf<'r, R>>, NoMemory> {
        LockShelf::ends(self.rt, alloc, workers, nodes)
    }
}

/// Workers that analyse labels: one in the thread that calls, the others in threads of their own.
#[derive(Clone, Copy)]
pub struct Team<'a, F, G> {
    /// How many.
    pub workers: Workers,
    /// What makes their shelf.
    pub shelving: &'a F,
    /// What is called round each label that isn't cyclic, by the worker that analyses it.
    pub gate: &'a G,
    /// What becomes of the memory of what the report was made of.
    pub leftovers: Leftovers,
}
