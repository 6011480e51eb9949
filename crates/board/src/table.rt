//! The table of a board, from its plan to its last words.
//!
//! Word n is that of node n; after the nodes come the count and the halt.
ghost use Rattle.std.specs.Prelude.{◌≡◌, ℕ, ◌+◌, ◌^◌, ◌<◌, ◌≤◌, List, [], ◌∷◌, length, map};
ghost use Rattle.std.specs.Prelude.{slice_index};
ghost use Rattle.std.specs.Prelude.{IfOk};
ghost use Rattle.board.specs.Rule.{blanks, first_words, IsBoardState};
ghost use Rattle.board.specs.Journal.{times, deps};
ghost use Rattle.board.specs.Seats.{HasJournals};

use crate::journal::Law;
use crate::key::{BoardKey, Describes};
use crate::plan::Plan;
use crate::plays::{BoardSeat, View};
use atomic_table::Table;
use std::alloc::{AllocError, Global};

pub type BoardTable = Table<(), View, BoardKey, Law, Global>;

/// What a board is asked for: a plan, and how many passes.
#[derive(Drop)]
struct Asked<'a, P> {
    plan: &'a P,
    passes: usize,
}

impl<'a, P: Plan> Describes<Asked<'a, P>> for Law {
    ghost plan = { λ a. P.lists a.plan.now };

    ghost passes = { λ a. a.passes };
}

/// How many dependencies each node has.
fn degrees<P: Plan>(alloc: Global, plan: &P) -> Result<Vec<u64>, AllocError>
    ensures { IfOk result (λ v. v.items ≡ map length (P.lists plan.now)) }
{
    let nodes = plan.nodes();
    let mut degrees = Vec::with_capacity(alloc, nodes.saturating_add(2))?;
    for n in 0..nodes {
        degrees.push(plan.dependencies(n) as u64)?;
    }
    Ok(degrees)
}

fn words_of<P: Plan>(alloc: Global, plan: &P) -> Result<Vec<u64>, AllocError>
    ensures { IfOk result (λ v. v.items ≡ first_words (P.lists plan.now)) }
{
    let mut words = degrees(alloc, plan)?;
    words.push(plan.nodes() as u64)?;
    words.push(0)?;
    Ok(words)
}

/// A table with the first words of the plan, and a seat with a blank journal for each pass.
///
/// # Errors
///
/// `AllocError` where memory was refused.
pub fn open_table<P: Plan>(
    alloc: Global,
    plan: &P,
    passes: usize,
) -> Result<(BoardTable, BoardSeat), AllocError>
    requires distinct { (n d : ℕ) → times d (deps (P.lists plan.now) n) ≤ 1 }
    requires inside { (n d : ℕ) → 0 < times d (deps (P.lists plan.now) n)
        → d < length (P.lists plan.now) }
    ensures size { IfOk result (λ t. (t.0.shared.table_id.words ≡ length (P.lists plan.now) + 2)
        × (t.0.shared.table_id.slots ≡ 0)) }
    ensures key { IfOk result (λ t. (t.0.shared.key.plan ≡ P.lists plan.now)
        × (t.0.shared.key.passes ≡ passes)) }
    ensures seat { IfOk result (λ t. HasJournals t.0.shared.table_id
        (blanks (P.lists plan.now) passes) t.1) }
{
    let words = words_of(alloc, plan)?;
    let key = BoardKey::of::<Asked<P>, Law>(&Asked { plan, passes });
    Table::of_words(alloc, words.as_slice(), &key)
}

/// The count and the halt at the end, of which the law holds with the journals of all passes.
pub fn close_table(table: BoardTable, seat: BoardSeat, nodes: usize) -> (u64, u64)
    requires place { seat.table_id ≡ table.shared.table_id }
    requires all { length seat.me.0 ≡ table.shared.key.passes }
    requires size { (nodes ≡ length table.shared.key.plan)
        × (table.shared.table_id.words ≡ nodes + 2) × (table.shared.table_id.slots ≡ 0) }
    requires room { nodes < 2 ^ 63 }
    ensures { (words : List ℕ)
        × IsBoardState table.shared.key.plan table.shared.key.passes words (seat.me.0 ∷ [])
        × (slice_index words nodes ≡ result.0) × (slice_index words (nodes + 1) ≡ result.1) }
{
    let closed = table.close_with(seat);
    let left = closed.word(nodes);
    let halt = closed.word(nodes + 1);
    closed.free();
    (left, halt)
}
