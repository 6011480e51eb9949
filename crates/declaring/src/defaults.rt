//! Defaults of attributes.
ghost use Rattle.std.specs.Prelude.{◌≡◌, List, IfOk, option_copied, option_map};
ghost use Rattle.values.specs.Seeing.{seen, group_items};
ghost use Rattle.values.specs.Shape.{shape};
ghost use Rattle.values.specs.declared.cells.Cell.{Cell};
ghost use Rattle.targets.specs.RuleCalls.{each_of};
ghost use Rattle.declaring.specs.AttributeCalls.{default_in, default_typed, whole_label_in};

use crate::lists::{whole_label, whole_labels};
use heap::Heap;
use operands::Operand;
use plain::Shared;
use std::alloc::{AllocError, Global};
use targets::{AttributeValue, TextDict, TextList};
use values::{AttributeKind, Group, Key, LeafRef, Seen};

/// What `default` says, which may be missing; None where it is of another type.
pub(crate) fn default_in(
    alloc: Global,
    heap: &Heap,
    kind: AttributeKind,
    value: Option<&Operand<'_>>,
) -> Result<Option<Option<AttributeValue>>, AllocError>
    ensures { IfOk result (λ o. o ≡ default_in heap.now kind (option_copied value.entry)) }
{
    let Some(value) = value else {
        return Ok(Some(None));
    };
    match default_typed(alloc, heap, kind, &heap.see_item(value.item()))? {
        Some(default) => Ok(Some(Some(default))),
        None => Ok(None),
    }
}

/// A default of this kind.
fn default_typed(
    alloc: Global,
    heap: &Heap,
    kind: AttributeKind,
    value: &Seen<'_, '_>,
) -> Result<Option<AttributeValue>, AllocError>
    ensures { IfOk result (λ o. o ≡ default_typed heap.now kind (seen value.now)) }
{
    match kind {
        AttributeKind::String => text_default(value),
        AttributeKind::Int => Ok(number_default(value)),
        AttributeKind::Bool => Ok(truth_default(value)),
        AttributeKind::StringList => strings_default(alloc, heap, value),
        AttributeKind::StringDict => dict_default(alloc, heap, value),
        AttributeKind::Label => label_default(alloc, value),
        AttributeKind::LabelList => labels_default(alloc, heap, value),
    }
}

/// A string.
fn text_default(value: &Seen<'_, '_>) -> Result<Option<AttributeValue>, AllocError>
    ensures { (h : List Cell) → IfOk result
        (λ o. o ≡ default_typed h AttributeKind.String (seen value.now)) }
{
    match value {
        Seen::Key(Key::Text(text)) => Ok(Some(AttributeValue::Key(Key::Text(text.share()?)))),
        _ => Ok(None),
    }
}

/// A whole number.
fn number_default(value: &Seen<'_, '_>) -> Option<AttributeValue>
    ensures { (h : List Cell) → result ≡ default_typed h AttributeKind.Int (seen value.now) }
{
    match value {
        Seen::Key(Key::Number(number)) => Some(AttributeValue::Key(Key::Number(*number))),
        _ => None,
    }
}

/// A bool.
fn truth_default(value: &Seen<'_, '_>) -> Option<AttributeValue>
    ensures { (h : List Cell) → result ≡ default_typed h AttributeKind.Bool (seen value.now) }
{
    match value {
        Seen::Key(Key::Truth(truth)) => Some(AttributeValue::Key(Key::Truth(*truth))),
        _ => None,
    }
}

/// A list of strings, and no tuple.
fn strings_default(
    alloc: Global,
    heap: &Heap,
    value: &Seen<'_, '_>,
) -> Result<Option<AttributeValue>, AllocError>
    ensures { IfOk result
        (λ o. o ≡ default_typed heap.now AttributeKind.StringList (seen value.now)) }
{
    let Seen::List(items) = value else {
        return Ok(None);
    };
    match TextList::read(alloc, heap, *items)? {
        Some(texts) => Ok(Some(AttributeValue::Strings(Shared::new(alloc, texts)?))),
        None => Ok(None),
    }
}

/// A dict whose keys and values are strings.
fn dict_default(
    alloc: Global,
    heap: &Heap,
    value: &Seen<'_, '_>,
) -> Result<Option<AttributeValue>, AllocError>
    ensures { IfOk result
        (λ o. o ≡ default_typed heap.now AttributeKind.StringDict (seen value.now)) }
{
    let Seen::Dict(table) = value else {
        return Ok(None);
    };
    match TextDict::read(alloc, heap, *table)? {
        Some(dict) => Ok(Some(AttributeValue::StringDict(Shared::new(alloc, dict)?))),
        None => Ok(None),
    }
}

/// None, or a label.
fn label_default(alloc: Global, value: &Seen<'_, '_>) -> Result<Option<AttributeValue>, AllocError>
    ensures { (h : List Cell) → IfOk result
        (λ o. o ≡ default_typed h AttributeKind.Label (seen value.now)) }
{
    match value {
        Seen::Leaf(LeafRef::None) => Ok(Some(AttributeValue::Label(None))),
        Seen::Key(Key::Text(text)) => match whole_label(alloc, text.as_str())? {
            Some(label) => Ok(Some(AttributeValue::Label(Some(label)))),
            None => Ok(None),
        },
        _ => Ok(None),
    }
}

/// A list of labels, or a tuple of them.
fn labels_default(
    alloc: Global,
    heap: &Heap,
    value: &Seen<'_, '_>,
) -> Result<Option<AttributeValue>, AllocError>
    ensures { IfOk result
        (λ o. o ≡ default_typed heap.now AttributeKind.LabelList (seen value.now)) }
{
    match value {
        Seen::List(items) => labels_value(alloc, heap, *items),
        Seen::Tuple(items) => labels_value(alloc, heap, *items),
        _ => Ok(None),
    }
}

/// The labels that items are.
fn labels_value<'b>(
    alloc: Global,
    heap: &'b Heap,
    items: Group<'b, '_>,
) -> Result<Option<AttributeValue>, AllocError>
    ensures { IfOk result (λ o. o ≡ option_map AttributeValue.Labels
        (each_of (λ v. whole_label_in (shape heap.now v)) (group_items items.entry))) }
{
    match whole_labels(alloc, heap, items)? {
        Some(labels) => Ok(Some(AttributeValue::Labels(Shared::new(alloc, labels)?))),
        None => Ok(None),
    }
}
