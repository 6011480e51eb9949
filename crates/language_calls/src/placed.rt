//! Values that are leaves, and those that are asked of their place.
ghost use Rattle.std.specs.Prelude.{◌≡◌, Some, None, option_map};
ghost use Rattle.leaves.specs.Lent.{leaf_at};
ghost use Rattle.values.specs.Seeing.{item_value};
ghost use Rattle.language.specs.Language.{leaf_of, target_of, of_place};

use values::{Item, LeafRef};

/// The leaf that a value is, if it is one.
#[inline(always)]
pub fn leaf_of<'a>(value: Item<'a>) -> Option<LeafRef<'a>>
    ensures { option_map leaf_at result ≡ leaf_of (item_value value.entry) }
{
    match value {
        Item::Leaf(leaf) => Some(leaf),
        _ => None,
    }
}

/// The place of the target that a value is among the dependencies, if it is one.
#[inline(always)]
pub fn target_of(value: Item<'_>) -> Option<usize>
    ensures { result ≡ target_of (item_value value.entry) }
{
    match leaf_of(value) {
        Some(LeafRef::Target(place)) => Some(place),
        _ => None,
    }
}

/// The target or the object that a value is, if it is one: their fields and methods are those of
/// their place.
#[inline(always)]
pub fn of_place<'a>(value: Item<'a>) -> Option<LeafRef<'a>>
    ensures { option_map leaf_at result ≡ of_place (item_value value.entry) }
{
    match leaf_of(value) {
        Some(leaf) => match leaf {
            LeafRef::Target(_) | LeafRef::Object(_) => Some(leaf),
            _ => None,
        },
        None => None,
    }
}
