//! Where workers find the numbers of nodes that can be started.
ghost use Rattle.std.specs.Prelude.{◌≡◌, ◌<◌, ℕ, length, vec_len, IfOk, IfSome};
ghost use Rattle.std.specs.List.{All};

use board::NoMemory;
use edges::NodeId;
use parallel::Workers;
use std::alloc::{AllocError, Global};
use std::collections::VecDeque;
use std::marker::Model;
use std::sync::{Arc, Mutex, Wait};

/// One worker's end of a place for the numbers of nodes.
///
/// What one end is given any end may give, in any order. Its ghost member `nodes` is how many nodes
/// the graph has. A number may be lost or given twice and no outcome will be wrong, but a run in
/// which a number is lost may never end.
pub trait Shelf: Drop {
    ghost nodes: { Self → ℕ };

    /// Puts a node of the graph on the shelf.
    ///
    /// # Errors
    ///
    /// `NoMemory` where no memory could be had for it.
    fn put(&mut self, n: NodeId) -> Result<(), NoMemory>
        requires node { n < nodes self.old }
        ensures same { nodes self.new ≡ nodes self.old };

    /// Takes a node of the graph from the shelf; `None` where none was found.
    fn take(&mut self) -> Option<NodeId>
        ensures same { nodes self.new ≡ nodes self.old }
        ensures node { IfSome result (λ n. n < nodes self.old) };

    /// Whether this end has others to give before it gives what is put on it next, so that another
    /// end may give that in the meantime.
    fn has_others_first(&self) -> bool {
        false
    }

    /// Puts the first nodes of a run over a graph with so many nodes on the shelf: once, before any
    /// of its ends is asked for one.
    ///
    /// It puts them on the ends in turn, if an end has no way of its own.
    ///
    /// # Errors
    ///
    /// `NoMemory` where no memory could be had for them.
    fn spread(ends: &mut Vec<Self>, first: &[NodeId], count: usize) -> Result<(), NoMemory>
        requires some { 0 < vec_len ends.old }
        requires shelves { All (λ e. nodes e ≡ count) ends.old.items }
        requires nodes { All (λ n. n < count) first.now }
        ensures size { vec_len ends.new ≡ vec_len ends.old }
        ensures shelves { All (λ e. nodes e ≡ count) ends.new.items }
    {
        let _count = count;
        let mut next = 0;
        for node in first {
            ends[next].put(*node)?;
            next = if next + 1 < ends.len() { next + 1 } else { 0 };
        }
        Ok(())
    }
}

/// An end of one queue under one lock, which all ends share. Seen as its number of nodes.
#[derive(Drop)]
pub struct LockShelf<'r, R> {
    rt: &'r R,
    queue: Arc<Mutex<VecDeque<usize>>>,
    nodes: usize,
}

impl<'r, R> Model for LockShelf<'r, R> {
    ghost use Rattle.std.specs.Prelude.{ℕ};

    ghost Value = { ℕ };

    ghost view = { λ s. s.nodes };
}

impl<'r, R: Wait> Shelf for LockShelf<'r, R> {
    ghost nodes = { λ s. s };

    fn put(&mut self, n: NodeId) -> Result<(), NoMemory> {
        let mut queue = self.queue.lock(self.rt);
        match queue.push_back(n.number()) {
            Ok(()) => Ok(()),
            Err(_) => Err(NoMemory),
        }
    }

    // What is under the lock is known by its type alone, so the number is tested.
    fn take(&mut self) -> Option<NodeId> {
        let mut queue = self.queue.lock(self.rt);
        let n = queue.pop_front()?;
        if n < self.nodes {
            Some(NodeId::of(n))
        } else {
            None
        }
    }
}

impl<'r, R: Wait> LockShelf<'r, R> {
    /// As many ends of one queue as there are workers, for a graph with so many nodes.
    ///
    /// # Errors
    ///
    /// `NoMemory` where memory was refused; nothing is kept then.
    pub fn ends(
        rt: &'r R,
        alloc: Global,
        workers: Workers,
        nodes: usize,
    ) -> Result<Vec<LockShelf<'r, R>>, NoMemory>
        ensures count { IfOk result (λ v. length v.items ≡ workers) }
        ensures within { IfOk result (λ v. (0 < length v.items) × (length v.items < 65)) }
        ensures nodes { IfOk result (λ v. All (λ e. e ≡ nodes) v.items) }
    {
        match LockShelf::ends_of(rt, alloc, workers.get(), nodes) {
            Ok(ends) => Ok(ends),
            Err(_) => Err(NoMemory),
        }
    }

    fn ends_of(
        rt: &'r R,
        alloc: Global,
        workers: usize,
        nodes: usize,
    ) -> Result<Vec<LockShelf<'r, R>>, AllocError>
        ensures { IfOk result (λ v. (length v.items ≡ workers) × All (λ e. e ≡ nodes) v.items) }
    {
        let queue = Arc::new(alloc, Mutex::new(VecDeque::new(alloc)))?;
        let mut ends = Vec::new(alloc);
        for _ in 0..workers {
            let queue = Arc::try_clone(&queue)?;
            ends.push(LockShelf { rt, queue, nodes })?;
        }
        Ok(ends)
    }
}
