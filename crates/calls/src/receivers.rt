//! Strings and depsets whose methods are called, where they lie and whatever the heap.
ghost use Rattle.std.specs.Prelude.{◌≡◌, Some, None, List, IfOk, option_copied};
ghost use Rattle.values.specs.Shape.{shape};
ghost use Rattle.values.specs.Seeing.{item_value, seen};
ghost use Rattle.values.specs.declared.cells.Cell.{Cell as Kept};
ghost use Rattle.operations.specs.Reading.{string_in, depset_in};

use arena::Arena;
use operands::Operand;
use plain::Text;
use std::alloc::{AllocError, Global};
use values::{Depset, Item, Key, LeafRef, Seen};

/// The string that a value is.
pub(crate) fn string_of<'a>(value: Item<'a>) -> Option<&'a Text>
    ensures { (h : List Kept) → option_copied result
        ≡ string_in (shape h (item_value value.entry)) }
{
    match value {
        Item::Key(Key::Text(text)) => Some(text),
        _ => None,
    }
}

/// The depset that a value is, lent. One of the evaluation's own is kept first, so that it can be.
///
/// # Errors
///
/// `AllocError` where there is no memory to keep it, or where its count is at its greatest.
pub(crate) fn depset_of<'a>(
    alloc: Global,
    kept: &'a Arena<Depset>,
    value: &Operand<'a>,
) -> Result<Option<&'a Depset>, AllocError>
    ensures { IfOk result (λ d. (h : List Kept) → option_copied d
        ≡ depset_in (shape h value.now)) }
{
    if let Some(shown) = value.lent_seen() {
        return Ok(depset_shown(&shown));
    }
    match depset_in(value.item()) {
        Some(depset) => Ok(Some(kept.keep(alloc, depset.share()?)?)),
        None => Ok(None),
    }
}

/// The depset that a value shows.
fn depset_shown<'a>(shown: &Seen<'a, 'a>) -> Option<&'a Depset>
    ensures { option_copied result ≡ depset_in (seen shown.now) }
{
    match *shown {
        Seen::Leaf(LeafRef::Depset(depset)) => Some(depset),
        _ => None,
    }
}

/// The depset that an item is.
fn depset_in<'a>(value: Item<'a>) -> Option<&'a Depset>
    ensures { (h : List Kept) → option_copied result
        ≡ depset_in (shape h (item_value value.entry)) }
{
    match value {
        Item::Leaf(LeafRef::Depset(depset)) => Some(depset),
        _ => None,
    }
}
