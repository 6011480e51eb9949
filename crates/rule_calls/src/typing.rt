//! Values of attributes, out of what is given for them.
ghost use Rattle.std.specs.Prelude.{ℕ, List, Ok, Err};
ghost use Rattle.values.specs.Seeing.{seen};
ghost use Rattle.values.specs.Shape.{shape};
ghost use Rattle.values.specs.declared.cells.Cell.{Cell};
ghost use Rattle.operations.specs.Items.{or_fault};
ghost use Rattle.operations.specs.States.{Gives};
ghost use Rattle.targets.specs.RuleCalls.{typed, if_allowed};

use crate::here::Here;
use crate::lists::labels;
use heap::Heap;
use operands::Operand;
use plain::Shared;
use std::alloc::Global;
use targets::{Attribute, AttributeValue, Choices, TextDict, TextList};
use values::{AttributeKind, Broken, Key, Kind, Seen};

/// What a value is for an attribute, whose labels are read in a package, or `type`.
pub(crate) fn typed(
    alloc: Global,
    heap: &Heap,
    package: &Here<'_>,
    attribute: &Attribute,
    value: &Operand<'_>,
) -> Result<AttributeValue, Broken>
    ensures { Gives (or_fault Kind.Wrong (typed heap.now «package».now attribute.now.kind
        attribute.now.values (shape heap.now value.now))) result }
{
    let value = heap.see_item(value.item());
    typed_shown(alloc, heap, package, attribute, &value)
}

/// What a value that shows this is for an attribute, or `type`.
fn typed_shown(
    alloc: Global,
    heap: &Heap,
    package: &Here<'_>,
    attribute: &Attribute,
    value: &Seen<'_, '_>,
) -> Result<AttributeValue, Broken>
    ensures { Gives (or_fault Kind.Wrong (typed heap.now «package».now attribute.now.kind
        attribute.now.values (seen value.now))) result }
{
    let allowed = &attribute.values;
    match attribute.kind {
        AttributeKind::String => text_value(allowed, value),
        AttributeKind::Int => number_value(allowed, value),
        AttributeKind::Bool => truth_value(value),
        AttributeKind::StringList => strings_value(alloc, heap, value),
        AttributeKind::StringDict => dict_value(alloc, heap, value),
        AttributeKind::Label => label_value(alloc, package, value),
        AttributeKind::LabelList => labels_value(alloc, heap, package, value),
    }
}

/// A string that is allowed.
fn text_value(allowed: &Choices, value: &Seen<'_, '_>) -> Result<AttributeValue, Broken>
    ensures { (h : List Cell) (p : List ℕ) → Gives (or_fault Kind.Wrong
        (typed h p AttributeKind.String allowed.now (seen value.now))) result }
{
    match value {
        Seen::Key(key) => match key {
            Key::Text(_) => if_allowed(allowed, key),
            _ => Err(Broken::Kind(Kind::Wrong)),
        },
        _ => Err(Broken::Kind(Kind::Wrong)),
    }
}

/// A whole number that is allowed.
fn number_value(allowed: &Choices, value: &Seen<'_, '_>) -> Result<AttributeValue, Broken>
    ensures { (h : List Cell) (p : List ℕ) → Gives (or_fault Kind.Wrong
        (typed h p AttributeKind.Int allowed.now (seen value.now))) result }
{
    match value {
        Seen::Key(key) => match key {
            Key::Number(_) => if_allowed(allowed, key),
            _ => Err(Broken::Kind(Kind::Wrong)),
        },
        _ => Err(Broken::Kind(Kind::Wrong)),
    }
}

/// A key, if it is allowed.
fn if_allowed(allowed: &Choices, key: &Key) -> Result<AttributeValue, Broken>
    ensures { Gives (or_fault Kind.Wrong (if_allowed allowed.now key.now)) result }
{
    if !allowed.allow(key) {
        return Err(Broken::Kind(Kind::Wrong));
    }
    let key = key.share()?;
    Ok(AttributeValue::Key(key))
}

/// A bool.
fn truth_value(value: &Seen<'_, '_>) -> Result<AttributeValue, Broken>
    ensures { (h : List Cell) (p : List ℕ) (ks : List Key) → Gives (or_fault Kind.Wrong
        (typed h p AttributeKind.Bool ks (seen value.now))) result }
{
    match value {
        Seen::Key(Key::Truth(truth)) => Ok(AttributeValue::Key(Key::Truth(*truth))),
        _ => Err(Broken::Kind(Kind::Wrong)),
    }
}

/// A list of strings.
fn strings_value(alloc: Global, heap: &Heap, value: &Seen<'_, '_>) -> Result<AttributeValue, Broken>
    ensures { (p : List ℕ) (ks : List Key) → Gives (or_fault Kind.Wrong
        (typed heap.now p AttributeKind.StringList ks (seen value.now))) result }
{
    let Seen::List(items) = value else {
        return Err(Broken::Kind(Kind::Wrong));
    };
    match TextList::read(alloc, heap, *items)? {
        Some(texts) => {
            let texts = Shared::new(alloc, texts)?;
            Ok(AttributeValue::Strings(texts))
        }
        None => Err(Broken::Kind(Kind::Wrong)),
    }
}

/// A dict whose keys and values are strings.
fn dict_value(alloc: Global, heap: &Heap, value: &Seen<'_, '_>) -> Result<AttributeValue, Broken>
    ensures { (p : List ℕ) (ks : List Key) → Gives (or_fault Kind.Wrong
        (typed heap.now p AttributeKind.StringDict ks (seen value.now))) result }
{
    let Seen::Dict(table) = value else {
        return Err(Broken::Kind(Kind::Wrong));
    };
    match TextDict::read(alloc, heap, *table)? {
        Some(dict) => {
            let dict = Shared::new(alloc, dict)?;
            Ok(AttributeValue::StringDict(dict))
        }
        None => Err(Broken::Kind(Kind::Wrong)),
    }
}

/// The label that a string is.
fn label_value(
    alloc: Global,
    package: &Here<'_>,
    value: &Seen<'_, '_>,
) -> Result<AttributeValue, Broken>
    ensures { (h : List Cell) (ks : List Key) → Gives (or_fault Kind.Wrong
        (typed h «package».now AttributeKind.Label ks (seen value.now))) result }
{
    let Seen::Key(Key::Text(text)) = value else {
        return Err(Broken::Kind(Kind::Wrong));
    };
    let label = package.label(alloc, text.as_str())?;
    Ok(AttributeValue::Label(Some(label)))
}

/// The labels that a list of strings is.
fn labels_value(
    alloc: Global,
    heap: &Heap,
    package: &Here<'_>,
    value: &Seen<'_, '_>,
) -> Result<AttributeValue, Broken>
    ensures { (ks : List Key) → Gives (or_fault Kind.Wrong
        (typed heap.now «package».now AttributeKind.LabelList ks (seen value.now))) result }
{
    let Seen::List(items) = value else {
        return Err(Broken::Kind(Kind::Wrong));
    };
    let read = labels(alloc, heap, package, *items)?;
    let labels = Shared::new(alloc, read)?;
    Ok(AttributeValue::Labels(labels))
}
