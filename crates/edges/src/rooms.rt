//! Lists that fill up, in one flat form: what users are sorted into.
ghost use Rattle.std.specs.Prelude.{◌≡◌, ◌+◌, ◌<◌, length, IfOk, slice_index, sum};
ghost use Rattle.edges.specs.Rows.{row};
ghost use Rattle.edges.specs.Rooms.{starts_of, AreEmpty, AreFull, pushed};

use crate::adjacency::Adjacency;
use crate::node::NodeId;
use std::alloc::{AllocError, Global};
use std::marker::Model;

/// A list for each node, each with room for so many entries and no more.
#[derive(Drop)]
pub struct Rooms {
    /// Where each room starts, and last where the last one ends.
    starts: Vec<usize>,
    /// How far each room is filled.
    ends: Vec<usize>,
    /// The rooms, one behind the other.
    entries: Vec<NodeId>,
}

impl Model for Rooms {
    ghost use Rattle.edges.specs.Rooms.{RoomsView, seen, IsRoomy};

    ghost Value = { RoomsView };

    ghost view = { λ r. seen r.starts.items r.ends.items r.entries.items };

    ghost invariant = { λ r. IsRoomy r.starts.items r.ends.items r.entries.items };
}

/// Where rooms of these sizes start and, while they are empty, end, one behind the other.
fn layout(
    alloc: Global,
    sizes: &[usize],
    total: usize,
) -> Result<(Vec<usize>, Vec<usize>), AllocError>
    requires total { total ≡ sum sizes.now }
    ensures starts { IfOk result (λ r. r.0.items ≡ starts_of sizes.now (length sizes.now + 1)) }
    ensures ends { IfOk result (λ r. r.1.items ≡ starts_of sizes.now (length sizes.now)) }
{
    let mut starts = Vec::with_capacity(alloc, sizes.len() + 1)?;
    let mut ends = Vec::with_capacity(alloc, sizes.len())?;
    let mut end = 0;
    for size in sizes {
        starts.push(end)?;
        ends.push(end)?;
        end += *size;
    }
    starts.push(end)?;
    Ok((starts, ends))
}

impl Rooms {
    /// Empty lists with room for so many entries each, `total` in all.
    ///
    /// # Errors
    ///
    /// `AllocError` where memory was refused.
    pub fn of(alloc: Global, sizes: &[usize], total: usize) -> Result<Rooms, AllocError>
        requires total { total ≡ sum sizes.now }
        ensures len { IfOk result (λ r. length r.lists ≡ length sizes.now) }
        ensures empty { IfOk result (λ r. AreEmpty r.lists (length sizes.now)) }
        ensures room { IfOk result (λ r. r.room ≡ sizes.now) }
    {
        let (starts, ends) = layout(alloc, sizes, total)?;
        let entries = vec![in alloc; NodeId::of(0); total]?;
        Ok(Rooms {
            starts,
            ends,
            entries,
        })
    }

    /// Puts an entry behind the others of a node's list, in which there is room for it.
    pub fn push(&mut self, n: NodeId, entry: NodeId)
        requires node { n < length self.old.lists }
        requires room { length (row self.old.lists n) < slice_index self.old.room n }
        ensures lists { self.new.lists ≡ pushed self.old.lists n entry }
        ensures room { self.new.room ≡ self.old.room }
    {
        let n = n.number();
        let end = self.ends[n];
        self.entries[end] = entry;
        self.ends[n] = end + 1;
    }

    /// The lists, all of which are full.
    pub fn full(self) -> Adjacency
        requires full { AreFull self }
        ensures { result ≡ self.lists }
    {
        Adjacency::of(self.starts, self.entries)
    }
}
