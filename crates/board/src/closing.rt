//! The end of a board: all passes come back, and what they know is gathered. Takes no memory.
ghost use Rattle.std.specs.Prelude.{◌≡◌, ℕ, ◌<◌, List, length, map, true};
ghost use Rattle.std.specs.List.{All};
ghost use Rattle.board.specs.Lawful.{IsEnd};
ghost use Rattle.board.specs.Seats.{HasJournals};
ghost use Rattle.board.specs.Views.{journal_of, knows, told, is_known, IsLevel};
ghost use Rattle.board.specs.Views.{Keeps, Knower, IsPassOf, IsGathered};

use crate::board::Board;
use crate::closed::Closed;
use crate::memory::Memory;
use crate::pass::Pass;
use crate::plays::{BoardSeat, Words};
use crate::seats::{empty_seat, gather};
use crate::table::close_table;

/// The journals of all passes in one seat, and what they know in `memory`.
fn gather_all<V>(words: &Words, passes: Vec<Pass<V>>, memory: &mut Memory<V>) -> BoardSeat
    requires place { 0 < words.now.table_id.words }
    requires passes { All (λ p. (p.table ≡ words.now.table_id)
        × (p.memory.cells ≡ memory.old.cells)) passes.items }
    requires size { IsLevel memory.old }
    ensures seat { HasJournals words.now.table_id (map journal_of passes.items) result }
    ensures memory { IsGathered memory.old passes.items memory.new }
{
    let mut seat = empty_seat(words);
    for pass in passes {
        let Pass {
            seat: other,
            memory: more,
        } = pass;
        gather(words, &mut seat, other);
        memory.merge(&more);
    }
    seat
}

impl<V> Board<V> {
    /// Ends the board, with all its passes in any order.
    ///
    /// The law holds of all their journals. The values that some pass knew are kept.
    pub fn close(self, mut passes: Vec<Pass<V>>) -> Closed<V>
        requires all { (length passes.items ≡ self.passes) × All (IsPassOf self) passes.items }
        ensures end { (words : List ℕ)
            × IsEnd self.plan words (map journal_of passes.items) result.left result.halted }
        ensures size { length result.known ≡ length self.plan }
        ensures kept { All (λ p. Keeps (knows p) (told result)) passes.items }
        ensures only { (n : ℕ) → is_known (told result n) ≡ true → Knower n passes.items }
    {
        let Board {
            table,
            cells,
            alloc: _,
        } = self;
        let Some(last) = passes.pop() else {
            unreachable!()
        };
        let Pass {
            seat: end,
            mut memory,
        } = last;
        let mut seat = gather_all(&table.shared, passes, &mut memory);
        gather(&table.shared, &mut seat, end);
        let (left, halt) = close_table(table, seat, cells.len());
        Closed::of(cells, memory, left, halt == 1)
    }
}
