//! Items of a sequence, each read as what is asked. None stands for a sequence with an item of
//! another type.
ghost use Rattle.std.specs.Prelude.{◌≡◌, IfOk, None, option_and_then};
ghost use Rattle.values.specs.Seeing.{seen, group_items};
ghost use Rattle.values.specs.Shape.{shape};
ghost use Rattle.operations.specs.Reading.{string_in, sequence_in};
ghost use Rattle.workspace.specs.Labels.{label_of};
ghost use Rattle.targets.specs.RuleCalls.{each_of};
ghost use Rattle.declaring.specs.AttributeCalls.{key_of_kind, provider_in, all_providers};
ghost use Rattle.declaring.specs.AttributeCalls.{whole_label_in};
ghost use Rattle.declaring.specs.NewNames.{name_in};

use crate::names::name_of;
use heap::Heap;
use plain::{Shared, Text};
use state::{sequence_of, text_of};
use std::alloc::{AllocError, Global};
use targets::Sequence;
use values::{AttributeKind, Group, Key, LeafRef, Names, Provider, Seen};
use workspace::{Label, LabelRefused};

/// Strings.
pub(crate) fn strings<'b>(
    alloc: Global,
    heap: &'b Heap,
    items: Group<'b, '_>,
) -> Result<Option<Names>, AllocError>
    ensures { IfOk result (λ o. o ≡ each_of (λ v. string_in (shape heap.now v))
        (group_items items.entry)) }
{
    let mut texts = Names::new(alloc);
    for item in items {
        match string_in(&heap.see_item(item))? {
            Some(text) => texts.push(text)?,
            None => return Ok(None),
        }
    }
    Ok(Some(texts))
}

/// A string.
fn string_in(value: &Seen<'_, '_>) -> Result<Option<Text>, AllocError>
    ensures { IfOk result (λ o. o ≡ string_in (seen value.now)) }
{
    match text_of(value) {
        Some(text) => Ok(Some(text.share()?)),
        None => Ok(None),
    }
}

/// Names.
pub(crate) fn names<'b>(
    alloc: Global,
    heap: &'b Heap,
    items: Group<'b, '_>,
) -> Result<Option<Names>, AllocError>
    ensures { IfOk result (λ o. o ≡ each_of (λ v. name_in (shape heap.now v))
        (group_items items.entry)) }
{
    let mut names = Names::new(alloc);
    for item in items {
        match name_in(&heap.see_item(item))? {
            Some(name) => names.push(name)?,
            None => return Ok(None),
        }
    }
    Ok(Some(names))
}

/// A name.
pub(crate) fn name_in(value: &Seen<'_, '_>) -> Result<Option<Text>, AllocError>
    ensures { IfOk result (λ o. o ≡ name_in (seen value.now)) }
{
    match name_of(value) {
        Some(name) => Ok(Some(name.share()?)),
        None => Ok(None),
    }
}

/// Labels that begin with `//`.
pub(crate) fn whole_labels<'b>(
    alloc: Global,
    heap: &'b Heap,
    items: Group<'b, '_>,
) -> Result<Option<Sequence<Shared<Label>>>, AllocError>
    ensures { IfOk result (λ o. o ≡ each_of (λ v. whole_label_in (shape heap.now v))
        (group_items items.entry)) }
{
    let mut labels = Sequence::new(alloc);
    for item in items {
        match whole_label_in(alloc, &heap.see_item(item))? {
            Some(label) => labels.push(label)?,
            None => return Ok(None),
        }
    }
    Ok(Some(labels))
}

/// A label that begins with `//`, as its text.
fn whole_label_in(alloc: Global, value: &Seen<'_, '_>) -> Result<Option<Shared<Label>>, AllocError>
    ensures { IfOk result (λ o. o ≡ whole_label_in (seen value.now)) }
{
    match text_of(value) {
        Some(text) => whole_label(alloc, text.as_str()),
        None => Ok(None),
    }
}

/// The label that a text is, read without a package.
pub(crate) fn whole_label(alloc: Global, text: &str) -> Result<Option<Shared<Label>>, AllocError>
    ensures { IfOk result (λ o. o ≡ label_of text.now None) }
{
    match Label::read(alloc, text, None) {
        Ok(label) => Ok(Some(Shared::new(alloc, label)?)),
        Err(LabelRefused::Illegal) => Ok(None),
        Err(LabelRefused::NoMemory) => Err(AllocError),
    }
}

/// Strings, or whole numbers, as the kind has them.
pub(crate) fn keys<'b>(
    alloc: Global,
    heap: &'b Heap,
    kind: AttributeKind,
    items: Group<'b, '_>,
) -> Result<Option<Sequence<Key>>, AllocError>
    ensures { IfOk result (λ o. o ≡ each_of (λ v. key_of_kind kind (shape heap.now v))
        (group_items items.entry)) }
{
    let mut keys = Sequence::new(alloc);
    for item in items {
        match key_of_kind(kind, &heap.see_item(item))? {
            Some(key) => keys.push(key)?,
            None => return Ok(None),
        }
    }
    Ok(Some(keys))
}

/// A string of an attribute of strings, a whole number of one of numbers.
fn key_of_kind(kind: AttributeKind, value: &Seen<'_, '_>) -> Result<Option<Key>, AllocError>
    ensures { IfOk result (λ o. o ≡ key_of_kind kind (seen value.now)) }
{
    match (kind, value) {
        (AttributeKind::String, Seen::Key(Key::Text(text))) => Ok(Some(Key::Text(text.share()?))),
        (AttributeKind::Int, Seen::Key(Key::Number(number))) => Ok(Some(Key::Number(*number))),
        _ => Ok(None),
    }
}

/// Providers.
pub(crate) fn providers<'b>(
    alloc: Global,
    heap: &'b Heap,
    items: Group<'b, '_>,
) -> Result<Option<Sequence<Shared<Provider>>>, AllocError>
    ensures { IfOk result (λ o. o ≡ all_providers heap.now (group_items items.entry)) }
{
    let mut providers = Sequence::new(alloc);
    for item in items {
        match provider_in(&heap.see_item(item))? {
            Some(provider) => providers.push(provider)?,
            None => return Ok(None),
        }
    }
    Ok(Some(providers))
}

/// A provider.
fn provider_in(value: &Seen<'_, '_>) -> Result<Option<Shared<Provider>>, AllocError>
    ensures { IfOk result (λ o. o ≡ provider_in (seen value.now)) }
{
    match value {
        Seen::Leaf(LeafRef::Provider(provider)) => Ok(Some(provider.share()?)),
        _ => Ok(None),
    }
}

/// Lists of providers.
pub(crate) fn lists_of_providers<'b>(
    alloc: Global,
    heap: &'b Heap,
    items: Group<'b, '_>,
) -> Result<Option<Sequence<Sequence<Shared<Provider>>>>, AllocError>
    ensures { IfOk result (λ o. o ≡ each_of
        (λ v. option_and_then (all_providers heap.now) (sequence_in (shape heap.now v)))
        (group_items items.entry)) }
{
    let mut lists = Sequence::new(alloc);
    for item in items {
        match providers_in(alloc, heap, &heap.see_item(item))? {
            Some(providers) => lists.push(providers)?,
            None => return Ok(None),
        }
    }
    Ok(Some(lists))
}

/// A list of providers.
fn providers_in(
    alloc: Global,
    heap: &Heap,
    value: &Seen<'_, '_>,
) -> Result<Option<Sequence<Shared<Provider>>>, AllocError>
    ensures { IfOk result
        (λ o. o ≡ option_and_then (all_providers heap.now) (sequence_in (seen value.now))) }
{
    match sequence_of(value) {
        Some(items) => providers(alloc, heap, items),
        None => Ok(None),
    }
}
