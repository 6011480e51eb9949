//! Which values count as true.
ghost use Rattle.std.specs.Prelude.{◌≡◌};
ghost use Rattle.leaves.specs.Lent.{leaf_at};
ghost use Rattle.values.specs.Seeing.{item_value};
ghost use Rattle.operations.specs.Truth.{truth_of, key_truth, leaf_truth};

use operations::State;
use values::{Depset, Item, Key, LeafRef, Seen};

/// Whether a value counts as true.
#[inline(always)]
pub fn truth(state: &State, item: Item<'_>) -> bool
    ensures { result ≡ truth_of state.now (item_value item.entry) }
{
    match state.heap.see_item(item) {
        Seen::Key(key) => key_truth(key),
        Seen::Leaf(leaf) => leaf_truth(leaf),
        Seen::List(items) => items.len() > 0,
        Seen::Tuple(items) => items.len() > 0,
        Seen::Dict(entries) => entries.len() > 0,
        Seen::Instance(_, _) => true,
        Seen::Nothing => true,
    }
}

#[inline(always)]
fn key_truth(key: &Key) -> bool
    ensures { result ≡ key_truth key.now }
{
    match key {
        Key::Text(text) => !text.is_empty(),
        Key::Number(number) => *number != 0,
        Key::Truth(truth) => *truth,
    }
}

#[inline(always)]
fn leaf_truth(leaf: LeafRef<'_>) -> bool
    ensures { result ≡ leaf_truth (leaf_at leaf.entry) }
{
    match leaf {
        LeafRef::None => false,
        LeafRef::Depset(depset) => !depset.is_empty(),
        _ => true,
    }
}
