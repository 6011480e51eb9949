//! Whether a list may be extended, which is known before anything is copied.
ghost use Rattle.std.specs.Prelude.{◌≡◌, Ok, Err, Some, None};
ghost use Rattle.heap.specs.Cells.{list_changed, list_refusal, joined};
ghost use Rattle.values.specs.Seeing.{item_value, group_items};
ghost use Rattle.operations.specs.States.{Gives};
ghost use Rattle.state.specs.Sizes.{made_or_refused};

use heap::Heap;
use values::{Branch, Broken, Cell, Group, Item, Kind, LARGEST};

/// A list may be extended by these items, or refuses them as its extension does: by the first of
/// `type`, `frozen`, `iterating` and `large`.
pub(crate) fn room(heap: &Heap, list: Item<'_>, more: Group<'_, '_>) -> Result<(), Broken>
    ensures { Gives (made_or_refused (list_changed (joined (group_items more.entry)) heap.now
        (item_value list.entry))) result }
{
    match list {
        Item::Key(_) | Item::Leaf(_) => Err(Broken::Kind(Kind::Wrong)),
        Item::Branch(branch) => Err(Broken::Kind(refusal(branch))),
        Item::Cell(number) => match heap.cell(number) {
            Some(cell) => cell_room(cell, more),
            None => Err(Broken::Kind(Kind::Wrong)),
        },
    }
}

/// The same, of a cell.
fn cell_room(cell: &Cell, more: Group<'_, '_>) -> Result<(), Broken>
    ensures { Gives (made_or_refused (joined (group_items more.entry) cell.now)) result }
{
    match cell {
        Cell::List(items, walks) => {
            if *walks > 0 {
                return Err(Broken::Kind(Kind::Iterating));
            }
            if items.len().saturating_add(more.len()) > LARGEST {
                return Err(Broken::Kind(Kind::Large));
            }
            Ok(())
        }
        _ => Err(Broken::Kind(Kind::Wrong)),
    }
}

/// Why a frozen value isn't changed as a list.
fn refusal(branch: &Branch) -> Kind
    ensures { result ≡ list_refusal branch.now }
{
    if branch.is_list() {
        Kind::Frozen
    } else {
        Kind::Wrong
    }
}
