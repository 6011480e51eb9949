//! Whether rows are those of a graph.
ghost use Rattle.std.specs.Prelude.{◌≡◌, ◌↔◌, ◌+◌, ◌<◌, ◌≤◌, ℕ, true, length, IfOk, IsTrue};
ghost use Rattle.std.specs.Prelude.{slice_index};
ghost use Rattle.edges.specs.Rows.{IsGraph, IsRow};

use crate::adjacency::Adjacency;
use crate::node::NodeId;
use std::alloc::{AllocError, Global};

/// Marks the nodes of a row. False where an entry is no node, or stands there twice.
fn mark_row(marks: &mut [usize], list: &[NodeId], mark: usize) -> bool
    requires new { (d : ℕ) → d < length marks.old → slice_index marks.old d < mark }
    ensures len { length marks.new ≡ length marks.old }
    ensures marks { (d : ℕ) → d < length marks.old → slice_index marks.new d ≤ mark }
    ensures row { IsTrue result ↔ IsRow (length marks.old) list.now }
{
    for node in list {
        let d = node.number();
        if d >= marks.len() {
            return false;
        }
        if marks[d] == mark {
            return false;
        }
        marks[d] = mark;
    }
    true
}

impl Adjacency {
    /// Whether the rows are a graph's: each entry is the number of a row, and none stands in a row
    /// twice. It takes time by the number of rows and entries, and memory by that of rows.
    ///
    /// # Errors
    ///
    /// `AllocError` where memory was refused.
    pub fn is_graph(&self, alloc: Global) -> Result<bool, AllocError>
        ensures { IfOk result (λ b. IsTrue b ↔ IsGraph self.now) }
    {
        let mut marks = vec![in alloc; 0; self.len()]?;
        for n in 0..self.len() {
            if !mark_row(&mut marks, self.row(NodeId::of(n)), n + 1) {
                return Ok(false);
            }
        }
        Ok(true)
    }
}
