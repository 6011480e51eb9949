//! What holds of every change of a heap, as laws of the definitions.
ghost use Rattle.std.specs.Prelude.{◌≡◌, List, Ok};
ghost use Rattle.heap.specs.Laws.{Change, changed_value, heap_after, OthersStay, WalkedStay};
ghost use Rattle.heap.specs.Laws.{WalksStay};
ghost use Rattle.values.specs.declared.cells.Cell.{Cell as Kept};

/// A change of a list or a dict leaves every other cell as it was.
pub fn changes_touch_one_cell()
    ensures { (h g : List Kept) (x : Change) → heap_after h x ≡ Ok g
        → OthersStay h g (changed_value x) }
{}

/// No change is made of what is walked: so a loop may read its items by their places, and needs no
/// copy of them.
pub fn walked_cells_keep_their_items()
    ensures { (h g : List Kept) (x : Change) → heap_after h x ≡ Ok g → WalkedStay h g }
{}

/// Nor do other walks and new cells change what is walked.
pub fn walks_leave_walked_cells()
    ensures { WalksStay }
{}
