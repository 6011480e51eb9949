//! Seats that are split and joined, so that journals move from one to another. Each costs one load
//! of the first word, and changes no word and no journal.
ghost use Rattle.std.specs.Prelude.{◌≡◌, ◌<◌, [], ◌++◌};
ghost use Rattle.board.specs.Steps.{head_of, tail_of};
ghost use Rattle.board.specs.Seats.{HasJournals, LeftWith};

use crate::plays::{BoardSeat, View, Words};
use atomic_table::{Join, Play, Split};

/// The first journal goes to a new seat.
struct First;

impl Split<View> for First {
    ghost left = { tail_of };

    ghost right = { head_of };
}

/// No journal goes to a new seat.
struct Nothing;

impl Split<View> for Nothing {
    ghost left = { λ v. v };

    ghost right = { λ _. [] };
}

/// All journals come into one seat.
struct Together;

impl Join<View> for Together {
    ghost both = { λ v w. v ++ w };

    ghost spent = { [] };
}

/// A seat that comes with no journal.
struct Empty;

impl Play<(), View> for Empty {
    ghost then = { λ _ _ _ w. w.0 ≡ [] };
}

/// A seat with the first journal, which leaves this one.
pub fn split_first(words: &Words, seat: &mut BoardSeat) -> BoardSeat
    requires place { (seat.old.table_id ≡ words.now.table_id) × (0 < words.now.table_id.words) }
    ensures seat { LeftWith (tail_of seat.old.me.0) seat.old seat.new }
    ensures first { HasJournals words.now.table_id (head_of seat.old.me.0) result }
{
    words.split_seat::<First>(seat)
}

/// A seat with no journal, split from this one, which stays as it was.
pub fn split_nothing(words: &Words, seat: &mut BoardSeat) -> BoardSeat
    requires place { (seat.old.table_id ≡ words.now.table_id) × (0 < words.now.table_id.words) }
    ensures seat { (seat.new.table_id ≡ seat.old.table_id) × (seat.new.me ≡ seat.old.me) }
    ensures nothing { HasJournals words.now.table_id [] result }
{
    words.split_seat::<Nothing>(seat)
}

/// All journals of both in one seat.
pub fn gather(words: &Words, seat: &mut BoardSeat, other: BoardSeat)
    requires place { (seat.old.table_id ≡ words.now.table_id) × (0 < words.now.table_id.words) }
    requires other { (other.table_id ≡ words.now.table_id) × (other.me.1 ≡ []) }
    ensures { LeftWith (seat.old.me.0 ++ other.me.0) seat.old seat.new }
{
    words.join_seat::<Together>(seat, other);
}

/// A new seat with no journal.
pub fn empty_seat(words: &Words) -> BoardSeat
    requires { 0 < words.now.table_id.words }
    ensures { HasJournals words.now.table_id [] result }
{
    let (_, seat) = words.load_new_seat::<Empty>(0);
    seat
}
