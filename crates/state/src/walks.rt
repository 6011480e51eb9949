//! Ticks, and walks of lists, tuples and dicts.
ghost use Rattle.std.specs.Prelude.{◌≡◌, Ok, Err, List, IfErr, MatchResult, None};
ghost use Rattle.ticks.specs.Ticking.{FaultOr};
ghost use Rattle.heap.specs.Cells.{IsFullAt, walk_begun_at};
ghost use Rattle.values.specs.declared.cells.Cell.{Cell};
ghost use Rattle.values.specs.Shape.{shape, value_of};
ghost use Rattle.values.specs.Seeing.{item_value};
ghost use Rattle.operations.specs.States.{DoesKind, Stays, tick};
ghost use Rattle.operations.specs.Walks.{begin, ended, walked_items};

use operations::State;
use values::{Broken, Item, Kind, Value};

/// One tick, or `steps`.
///
/// # Errors
///
/// `steps` where no tick of the limit is left.
#[inline(always)]
pub fn tick(state: &mut State) -> Result<(), Kind>
    ensures { DoesKind tick state.old result state.new }
{
    state.ticks.tick()
}

/// A walk begins: its cell counts it.
///
/// # Errors
///
/// `type`, where the value is no list, tuple or dict; want of memory only where its cell counts
/// 2^64 - 1 walks already.
pub fn begin(state: &mut State, walked: Item<'_>) -> Result<(), Broken>
    ensures begun { MatchResult result (λ _. begin (item_value walked.entry) state.old
        ≡ Ok (walked_items (shape state.old.heap (item_value walked.entry)), state.new))
        (λ e. Stays state.old state.new × FaultOr (begin (item_value walked.entry) state.old) e) }
    ensures full { IfErr result (λ e. e ≡ Broken.NoMemory
        → IsFullAt state.old.heap (item_value walked.entry)) }
{
    match walked {
        Item::Cell(number) => match state.heap.begin_walk(&Value::Cell(number)) {
            Ok(_) => Ok(()),
            Err(broken) => Err(broken),
        },
        Item::Branch(branch) => {
            if branch.is_walkable() {
                Ok(())
            } else {
                Err(Broken::Kind(Kind::Wrong))
            }
        }
        Item::Key(_) | Item::Leaf(_) => Err(Broken::Kind(Kind::Wrong)),
    }
}

/// A walk ends with its loop.
pub fn end(state: &mut State, walked: Item<'_>)
    ensures { state.new ≡ ended (item_value walked.entry) state.old }
{
    match walked {
        Item::Cell(number) => state.heap.end_walk(Some(number)),
        _ => {}
    }
}
