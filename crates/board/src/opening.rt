//! A new board and its passes. All memory that steps will need is taken here.
ghost use Rattle.std.specs.Prelude.{◌≡◌, ℕ, ◌<◌, ◌≤◌, [], ◌∷◌, ◌++◌, length};
ghost use Rattle.std.specs.Prelude.{MatchOption, IfSome, IfOk};
ghost use Rattle.std.specs.List.{All};
ghost use Rattle.board.specs.Journal.{times, deps};
ghost use Rattle.board.specs.Rule.{blank, blanks, plan_in};
ghost use Rattle.board.specs.Seats.{HasJournals};
ghost use Rattle.board.specs.Views.{IsNew, IsPassOf};

use crate::answers::NoMemory;
use crate::board::Board;
use crate::memory::fresh;
use crate::pass::Pass;
use crate::plan::{Lists, Plan};
use crate::plays::BoardSeat;
use crate::seats::split_first;
use crate::table::open_table;
use once_cell::race::OnceBox;
use std::alloc::{AllocError, Global};

fn cells_for<V: Drop>(alloc: Global, nodes: usize) -> Result<Vec<OnceBox<V>>, AllocError>
    ensures { IfOk result (λ v. length v.items ≡ nodes) }
{
    let mut cells = Vec::with_capacity(alloc, nodes)?;
    for _ in 0..nodes {
        cells.push_reserved(OnceBox::new(alloc));
    }
    Ok(cells)
}

impl<V: Drop> Board<V> {
    /// A board for a plan, and its passes, of which none has done anything.
    ///
    /// The plan has each node's dependencies: distinct nodes of the plan. It may be empty. A node
    /// without dependencies can be started at once. There is at least one pass. `Err` comes where
    /// the allocator refuses memory, and then nothing is kept. A plan with a cycle is fine: no node
    /// of the cycle will ever start.
    ///
    /// # Errors
    ///
    /// `NoMemory` where memory was refused; nothing is kept then.
    pub fn new(
        alloc: Global,
        plan: &[Vec<usize>],
        passes: usize,
    ) -> Result<(Board<V>, Vec<Pass<V>>), NoMemory>
        requires distinct { (n d : ℕ) → times d (deps (plan_in plan.now) n) ≤ 1 }
        requires inside { (n d : ℕ) → 0 < times d (deps (plan_in plan.now) n)
            → d < length plan.now }
        requires some { 0 < passes }
        ensures board { IfOk result (λ t. (t.0.plan ≡ plan_in plan.now) × (t.0.passes ≡ passes)) }
        ensures passes { IfOk result (λ t. (length t.1.items ≡ passes)
            × All (IsNew t.0) t.1.items) }
        ensures of { IfOk result (λ t. All (IsPassOf t.0) t.1.items) }
    {
        Board::over(alloc, &Lists { lists: plan }, passes)
    }

    /// The same for a plan in whatever form.
    ///
    /// # Errors
    ///
    /// As for [`Board::new`].
    pub fn over<P: Plan>(
        alloc: Global,
        plan: &P,
        passes: usize,
    ) -> Result<(Board<V>, Vec<Pass<V>>), NoMemory>
        requires distinct { (n d : ℕ) → times d (deps (P.lists plan.now) n) ≤ 1 }
        requires inside { (n d : ℕ) → 0 < times d (deps (P.lists plan.now) n)
            → d < length (P.lists plan.now) }
        requires some { 0 < passes }
        ensures board { IfOk result (λ t. (t.0.plan ≡ P.lists plan.now) × (t.0.passes ≡ passes)) }
        ensures passes { IfOk result (λ t. (length t.1.items ≡ passes)
            × All (IsNew t.0) t.1.items) }
        ensures of { IfOk result (λ t. All (IsPassOf t.0) t.1.items) }
    {
        let Ok((board, seat)) = Board::without_passes(alloc, plan, passes) else {
            return Err(NoMemory);
        };
        let Ok(all) = board.deal_all(seat, passes) else {
            return Err(NoMemory);
        };
        Ok((board, all))
    }

    /// A board, and a seat with all journals.
    fn without_passes<P: Plan>(
        alloc: Global,
        plan: &P,
        passes: usize,
    ) -> Result<(Board<V>, BoardSeat), AllocError>
        requires distinct { (n d : ℕ) → times d (deps (P.lists plan.now) n) ≤ 1 }
        requires inside { (n d : ℕ) → 0 < times d (deps (P.lists plan.now) n)
            → d < length (P.lists plan.now) }
        requires some { 0 < passes }
        ensures board { IfOk result (λ t. (t.0.plan ≡ P.lists plan.now) × (t.0.passes ≡ passes)) }
        ensures seat { IfOk result (λ t. HasJournals t.0.table (blanks t.0.plan passes) t.1) }
    {
        let (table, seat) = open_table(alloc, plan, passes)?;
        let cells = cells_for(alloc, plan.nodes())?;
        Ok((
            Board {
                table,
                cells,
                alloc,
            },
            seat,
        ))
    }

    /// A pass with the first journal of the seat.
    fn deal(&self, seat: &mut BoardSeat) -> Result<Pass<V>, AllocError>
        requires place { (seat.old.table_id ≡ self.now.table) × (seat.old.me.1 ≡ []) }
        requires more { (k : ℕ) × (seat.old.me.0 ≡ blank self.now.plan ∷ blanks self.now.plan k) }
        ensures seat { (seat.new.table_id ≡ seat.old.table_id) × (seat.new.me.1 ≡ []) }
        ensures ok { IfOk result (λ p. IsNew self.now p
            × (seat.old.me.0 ≡ blank self.now.plan ∷ seat.new.me.0)) }
    {
        let memory = fresh(self.alloc, self.cells.as_slice())?;
        let seat = split_first(&self.table.shared, seat);
        Ok(Pass { seat, memory })
    }

    /// A pass for each journal of the seat.
    fn deal_all(&self, mut seat: BoardSeat, passes: usize) -> Result<Vec<Pass<V>>, AllocError>
        requires { HasJournals self.now.table (blanks self.now.plan passes) seat }
        ensures { IfOk result (λ v. (length v.items ≡ passes) × All (IsNew self.now) v.items) }
    {
        let mut all = Vec::new(self.alloc);
        for _ in 0..passes {
            all.push(self.deal(&mut seat)?)?;
        }
        Ok(all)
    }
}

impl<V> Board<V> {
    /// Takes the last of the passes, as to give it to a thread. `None` where none is left.
    ///
    /// What is taken, and what stays, are passes of this board.
    pub fn take_pass(&self, passes: &mut Vec<Pass<V>>) -> Option<Pass<V>>
        requires { All (IsPassOf self.now) passes.old.items }
        ensures last { MatchOption result
            ((passes.old.items ≡ []) × (passes.new.items ≡ []))
            (λ p. passes.old.items ≡ passes.new.items ++ p ∷ []) }
        ensures of { IfSome result (IsPassOf self.now) }
        ensures rest { All (IsPassOf self.now) passes.new.items }
    {
        let _board = self;
        passes.pop()
    }
}
