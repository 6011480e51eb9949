//! The journal of a pass, and the rule that the table of a board keeps.
//!
//! The table's state is the words and the views of all seats. A view is a list of journals: one for
//! a pass at rest, none for a seat that was joined to another, several while passes meet or a board
//! is closed. The rule, `IsBoardState`, speaks of all journals in a row, so it does not see how
//! they are grouped in seats. All journals are there from the start: a seat that has as many as the
//! board has passes has them all.
use crate::key::BoardKey;
use atomic_table::TableRule;
use std::collections::LinkedList;

/// What one pass did and saw. It is spoken of by contracts alone: no value of it is made.
pub struct Journal {
    /// The board's plan: each node's dependencies.
    pub plan: LinkedList<LinkedList<usize>>,
    /// The nodes that this pass started, the last one first, as in each list here.
    pub started: LinkedList<usize>,
    /// The edges that it delivered, each a dependency and its user.
    pub delivered: LinkedList<(usize, usize)>,
    /// The nodes to which it delivered the last edge.
    pub readied: LinkedList<usize>,
    /// The nodes that it finished.
    pub finished: LinkedList<usize>,
    /// The nodes that it saw started by some pass.
    pub seen: LinkedList<usize>,
    /// The last count of unfinished nodes that it saw, which is the least.
    pub least: Option<u64>,
    /// Whether it set the halt.
    pub set: bool,
    /// Whether it saw the halt set.
    pub saw: bool,
}

/// The rule of a board's table.
pub struct Law;

impl TableRule<(), LinkedList<Journal>, BoardKey> for Law {
    ghost use Rattle.board.specs.Rule.{IsBoardState, blanks};

    ghost holds = { λ key s. IsBoardState key.plan key.passes s.words s.views };

    ghost first = { λ key. blanks key.plan key.passes };
}
