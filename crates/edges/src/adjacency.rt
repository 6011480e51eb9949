//! A list of nodes for each node, in one flat form.
ghost use Rattle.std.specs.Prelude.{◌≡◌, ◌<◌, length, [], ◌++◌, ◌∷◌, IfOk, is_ok, if◌then◌else◌};
ghost use Rattle.std.specs.List.{sum_by};
ghost use Rattle.edges.specs.Rows.{row};
ghost use Rattle.edges.specs.Flat.{IsFlat, flat_rows};

use crate::node::NodeId;
use std::alloc::{AllocError, Global};
use std::marker::Model;

/// For each node, by number from 0, a row of nodes: those that it depends on, or those that depend
/// on it. An entry takes 8 bytes, and a row 8 more.
#[derive(Drop)]
pub struct Adjacency {
    /// Where each row starts, and last where the last one ends.
    starts: Vec<usize>,
    /// The rows, one behind the other.
    entries: Vec<NodeId>,
}

impl Model for Adjacency {
    ghost use Rattle.std.specs.Prelude.{ℕ, List};
    ghost use Rattle.edges.specs.Flat.{flat_rows, IsFlat};

    ghost Value = { List (List ℕ) };

    ghost view = { λ a. flat_rows a.starts.items a.entries.items };

    ghost invariant = { λ a. IsFlat a.starts.items a.entries.items };
}

impl Adjacency {
    /// No rows, with room for so many, and for so many entries in all.
    ///
    /// # Errors
    ///
    /// `AllocError` where memory was refused.
    pub fn with_capacity(
        alloc: Global,
        rows: usize,
        entries: usize,
    ) -> Result<Adjacency, AllocError>
        requires room { rows < usize.MAX }
        ensures { IfOk result (λ a. a ≡ []) }
    {
        let mut starts = Vec::with_capacity(alloc, rows + 1)?;
        starts.push(0)?;
        let entries = Vec::with_capacity(alloc, entries)?;
        Ok(Adjacency { starts, entries })
    }

    /// The rows that lie behind one another in `entries`, with where each starts.
    pub(crate) fn of(starts: Vec<usize>, entries: Vec<NodeId>) -> Adjacency
        requires { IsFlat starts.items entries.items }
        ensures { result ≡ flat_rows starts.items entries.items }
    {
        Adjacency { starts, entries }
    }

    /// Adds the row of the next node. Where memory is refused, nothing is added.
    ///
    /// # Errors
    ///
    /// `AllocError` where memory was refused.
    pub fn push(&mut self, list: &[NodeId]) -> Result<(), AllocError>
        ensures { self.new ≡ (if is_ok result then self.old ++ list.now ∷ [] else self.old) }
    {
        self.starts.reserve(1)?;
        self.entries.extend_from_slice(list)?;
        let Ok(()) = self.starts.push(self.entries.len()) else {
            unreachable!()
        };
        Ok(())
    }

    /// How many rows there are.
    pub fn len(&self) -> usize
        ensures { result ≡ length self.now }
    {
        self.starts.len() - 1
    }

    /// How many entries all rows have together.
    pub fn entries(&self) -> usize
        ensures { result ≡ sum_by length self.now }
    {
        self.entries.len()
    }

    /// The row of a node.
    pub fn row(&self, n: NodeId) -> &[NodeId]
        requires node { n < length self.now }
        ensures { result.now ≡ row self.now n }
    {
        let n = n.number();
        let start = self.starts[n];
        let end = self.starts[n + 1];
        &self.entries[start..end]
    }
}
