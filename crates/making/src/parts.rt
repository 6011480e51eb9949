//! Elements and depsets, out of the items of a sequence.
ghost use Rattle.std.specs.Prelude.{◌≡◌, Ok, Err, Some, None, IfOk, MatchResult};
ghost use Rattle.ticks.specs.Ticking.{FaultOr};
ghost use Rattle.values.specs.Seeing.{seen, group_items};
ghost use Rattle.operations.specs.Depsets.{element_in, all_in, put_last};
ghost use Rattle.operations.specs.Reading.{depset_in};

use heap::Heap;
use keys::TextKey;
use std::alloc::{AllocError, Global};
use values::{Broken, Depset, Element, Group, Key, Kind, LeafRef, Seen};

/// The elements that items are, or `type`.
pub(crate) fn elements<'b>(
    alloc: Global,
    items: Group<'b, '_>,
    heap: &'b Heap,
) -> Result<Vec<Element>, Broken>
    ensures { MatchResult result (λ v. all_in element_in heap.now (group_items items.entry)
        ≡ Ok v.items) (λ e. FaultOr (all_in element_in heap.now (group_items items.entry)) e) }
{
    let mut elements = Vec::with_capacity(alloc, items.len())?;
    for item in items {
        if let Err(broken) = put_element(&heap.see_item(item), &mut elements) {
            return Err(broken);
        }
    }
    Ok(elements)
}

/// Puts the element that a value is last, or `type`.
fn put_element(value: &Seen<'_, '_>, elements: &mut Vec<Element>) -> Result<(), Broken>
    ensures { MatchResult result (λ _. put_last elements.old.items (element_in (seen value.now))
        ≡ Ok elements.new.items) (λ e. FaultOr
        (put_last elements.old.items (element_in (seen value.now))) e) }
{
    match element_of(value)? {
        Some(element) => {
            if elements.push(element).is_err() {
                return Err(Broken::NoMemory);
            }
            Ok(())
        }
        None => Err(Broken::Kind(Kind::Wrong)),
    }
}

/// The element that a value is, if it can be one.
fn element_of(value: &Seen<'_, '_>) -> Result<Option<Element>, AllocError>
    ensures { IfOk result (λ e. e ≡ element_in (seen value.now)) }
{
    match value {
        Seen::Key(Key::Text(text)) => Ok(Some(Element::Text(TextKey::new(text.share()?)))),
        Seen::Key(Key::Number(number)) => Ok(Some(Element::Number(*number))),
        Seen::Key(Key::Truth(truth)) => Ok(Some(Element::Truth(*truth))),
        Seen::Leaf(LeafRef::Label(label)) => Ok(Some(Element::Label(label.share()?))),
        Seen::Leaf(LeafRef::File(file)) => Ok(Some(Element::File(file.share()?))),
        _ => Ok(None),
    }
}

/// The depsets that items are, or `type`.
pub(crate) fn children<'b>(
    alloc: Global,
    items: Group<'b, '_>,
    heap: &'b Heap,
) -> Result<Vec<Depset>, Broken>
    ensures { MatchResult result (λ v. all_in depset_in heap.now (group_items items.entry)
        ≡ Ok v.items) (λ e. FaultOr (all_in depset_in heap.now (group_items items.entry)) e) }
{
    let mut depsets = Vec::with_capacity(alloc, items.len())?;
    for item in items {
        if let Err(broken) = put_depset(&heap.see_item(item), &mut depsets) {
            return Err(broken);
        }
    }
    Ok(depsets)
}

/// Puts the depset that a value is last, or `type`.
fn put_depset(value: &Seen<'_, '_>, depsets: &mut Vec<Depset>) -> Result<(), Broken>
    ensures { MatchResult result (λ _. put_last depsets.old.items (depset_in (seen value.now))
        ≡ Ok depsets.new.items) (λ e. FaultOr (put_last depsets.old.items
        (depset_in (seen value.now))) e) }
{
    match value {
        Seen::Leaf(LeafRef::Depset(depset)) => {
            let depset = depset.share()?;
            if depsets.push(depset).is_err() {
                return Err(Broken::NoMemory);
            }
            Ok(())
        }
        _ => Err(Broken::Kind(Kind::Wrong)),
    }
}
