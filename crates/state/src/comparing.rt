//! Equality, and membership of lists and tuples.
ghost use Rattle.std.specs.Prelude.{Ok, Err};
ghost use Rattle.ticks.specs.Ticking.{SaysKind};
ghost use Rattle.values.specs.Seeing.{item_value, group_items};
ghost use Rattle.visits.specs.Equal.{equal_at};
ghost use Rattle.operations.specs.States.{DoesKind};
ghost use Rattle.operations.specs.Equality.{equals, among};

use heap::Heap;
use operations::State;
use values::{Group, Item, Kind, Ticks, VISITED_LEVELS};
use visits::equal;

/// Whether two values are equal: a tick for each pair that is visited.
///
/// # Errors
///
/// Of each pair `steps`, `deep`, and `type` where two values of a type that isn't compared meet. It
/// takes no memory.
pub fn equals(state: &mut State, x: Item<'_>, y: Item<'_>) -> Result<bool, Kind>
    ensures { DoesKind (equals (item_value x.entry) (item_value y.entry)) state.old result
        state.new }
{
    equal(x, y, &state.heap, &mut state.ticks)
}

/// Whether one of the items equals the value: `item == x`, in order, until one does.
///
/// # Errors
///
/// The fault of the first comparison that has one, as `equals` has them.
pub fn is_among(
    heap: &Heap,
    ticks: &mut Ticks,
    x: Item<'_>,
    items: Group<'_, '_>,
) -> Result<bool, Kind>
    ensures { SaysKind (among (equal_at VISITED_LEVELS heap.now) (item_value x.entry)
        (group_items items.entry) ticks.old) result ticks.new }
{
    for item in items {
        match equal(item, x, heap, ticks) {
            Ok(true) => return Ok(true),
            Ok(false) => {}
            Err(kind) => return Err(kind),
        }
    }
    Ok(false)
}
