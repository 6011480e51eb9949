//! Instances of providers, and their fields.
ghost use Rattle.std.specs.Prelude.{◌≡◌, ◌++◌, ◌∷◌, [], Ok, Err, Some, None};
ghost use Rattle.std.specs.Prelude.{IfOk, OnOk, slice_get, option_copied};
ghost use Rattle.std.specs.Prelude.{is_ok};
ghost use Rattle.depsets.specs.Elements.{elements, all_of_type};
ghost use Rattle.values.specs.Seeing.{seen, option_value, slot_values};
ghost use Rattle.operations.specs.States.{Does};
ghost use Rattle.operations.specs.Items.{at_place};
ghost use Rattle.first_places.specs.Places.{place_named};
ghost use Rattle.operations.specs.Arguments.{given, given_for};
ghost use Rattle.operations.specs.Fields.{field_in};
ghost use Rattle.operations.specs.Names.{in_slot};
ghost use Rattle.operations.specs.Instances.{are_fields, given_fields, new_instance, with_fields};
ghost use Rattle.operations.specs.Instances.{constructed, with_files};
ghost use Rattle.operations.specs.Instances.{with_new_files, info_with, files_in};

use crate::depset_calls::new_depset;
use first_places::{FirstPlaces, PlacedNames, place_named};
use operands::Operand;
use operations::{Arguments, State};
use plain::{Shared, Text};
use std::alloc::{AllocError, Global};
use values::{
    Broken, Depset, ElementType, Fields, Item, Kind, LeafRef, Order, Provider, Seen, Slots, Value,
};

/// An instance of a provider, with the fields that were given; the values themselves are kept.
///
/// # Errors
///
/// `arity` for a position, and for a name that is none of the provider's fields; `NoMemory` where
/// memory was refused.
pub fn construct<'a>(
    alloc: Global,
    state: &mut State<'a>,
    provider: &Shared<Provider>,
    arguments: &Arguments<'_, 'a>,
) -> Result<Value, Broken>
    ensures { Does (constructed provider.now (given arguments.now)) state.old result state.new }
{
    if !arguments.items.is_empty() {
        return Err(Broken::Kind(Kind::Arity));
    }
    with_fields(alloc, state, provider, arguments.names, arguments.values)
}

/// An instance with the fields of these names.
fn with_fields<'a>(
    alloc: Global,
    state: &mut State<'a>,
    provider: &Shared<Provider>,
    names: &[Text],
    values: &[Operand<'a>],
) -> Result<Value, Broken>
    ensures { Does (with_fields provider.now names.now values.now) state.old result state.new }
{
    let fields = &provider.get().fields;
    if !are_fields(fields, names) {
        return Err(Broken::Kind(Kind::Arity));
    }
    let fields = given_fields(alloc, fields.as_slice(), names, values)?;
    let provider = provider.share()?;
    state.heap.new_instance(provider, fields)
}

/// Whether each name is that of a field.
fn are_fields(fields: &PlacedNames, names: &[Text]) -> bool
    ensures { result ≡ are_fields fields.now names.now }
{
    names.iter().all(|name| fields.has(name))
}

/// What each field got.
fn given_fields<'a>(
    alloc: Global,
    fields: &[Text],
    names: &[Text],
    values: &[Operand<'a>],
) -> Result<Fields<'a>, AllocError>
    ensures { IfOk result (λ os. os ≡ given_fields fields.now names.now values.now) }
{
    let places = FirstPlaces::new(alloc, names)?;
    let mut slots = Fields::with_capacity(alloc, fields.len())?;
    for field in fields {
        put_field(field, &places, values, &mut slots)?;
    }
    Ok(slots)
}

/// Puts what a field got last.
fn put_field<'a>(
    field: &Text,
    names: &FirstPlaces<'_>,
    values: &[Operand<'a>],
    slots: &mut Fields<'a>,
) -> Result<(), AllocError>
    ensures { OnOk result (slots.new ≡ slots.old ++ given_for field.now names.now values.now ∷ []) }
{
    let value = match value_at(values, names.get(field.as_str())) {
        Some(value) => Some(value.share()?),
        None => None,
    };
    slots.push(value)?;
    Ok(())
}

/// What was given under a name.
pub fn given_for<'a, 'v>(
    name: &str,
    names: &[Text],
    values: &'a [Operand<'v>],
) -> Option<&'a Operand<'v>>
    ensures { option_copied result ≡ given_for name.now names.now values.now }
{
    value_at(values, place_named(name, names))
}

/// The value at a place, if there is one.
pub fn value_at<'a, 'v>(values: &'a [Operand<'v>], place: Option<usize>) -> Option<&'a Operand<'v>>
    ensures { option_copied result ≡ at_place values.now place }
{
    match place {
        Some(place) => values.get(place),
        None => None,
    }
}

/// The value of an instance's field, if it was given: what is lent there is lent here.
///
/// # Errors
///
/// `AllocError` where a count is at its greatest.
pub fn field_operand<'a>(
    provider: &Provider,
    slots: Slots<'_, 'a>,
    name: &Text,
) -> Result<Option<Operand<'a>>, AllocError>
    ensures { IfOk result (λ o. o ≡ field_in name.now provider.now.fields
        (slot_values slots.entry)) }
{
    match provider.fields.place(name) {
        Some(place) => slot_at(slots, place),
        None => Ok(None),
    }
}

/// The value of an instance's field, if it was given, where it lies.
pub fn field<'b>(provider: &Provider, slots: Slots<'b, '_>, name: &Text) -> Option<Item<'b>>
    ensures { option_value result ≡ field_in name.now provider.now.fields
        (slot_values slots.entry) }
{
    match provider.fields.place(name) {
        Some(place) => slot_item(slots, place),
        None => None,
    }
}

/// What stands in a slot, where it lies, None outside.
fn slot_item<'b>(slots: Slots<'b, '_>, place: usize) -> Option<Item<'b>>
    ensures { option_value result ≡ in_slot (slice_get (slot_values slots.entry) place) }
{
    if place < slots.len() {
        slots.slot(place)
    } else {
        None
    }
}

/// What stands in a slot, None outside.
fn slot_at<'a>(slots: Slots<'_, 'a>, place: usize) -> Result<Option<Operand<'a>>, AllocError>
    ensures { IfOk result (λ o. o ≡ in_slot (slice_get (slot_values slots.entry) place)) }
{
    if place < slots.len() {
        slots.operand(place)
    } else {
        Ok(None)
    }
}

/// `DefaultInfo(files = files)`; the default is a new depset without elements, with the next
/// serial.
///
/// # Errors
///
/// `type`, where the files are no depset that is empty or of Files; `large`, where no serial is
/// left for the default; `NoMemory` where memory was refused.
pub fn default_info<'a>(
    alloc: Global,
    state: &mut State<'a>,
    provider: &Shared<Provider>,
    files: Option<&Operand<'a>>,
) -> Result<Value, Broken>
    ensures { Does (info_with provider.now (option_copied files.entry)) state.old result state.new }
{
    match files {
        Some(files) => info_of_files(alloc, state, provider, files),
        None => info_without_files(alloc, state, provider),
    }
}

/// An instance of one field, which has this value.
fn with_files<'a>(
    alloc: Global,
    state: &mut State<'a>,
    provider: &Shared<Provider>,
    files: Operand<'a>,
) -> Result<Value, Broken>
    ensures { Does (with_files provider.now files.entry) state.old result state.new }
{
    let provider = provider.share()?;
    let fields = one_field(alloc, files)?;
    state.heap.new_instance(provider, fields)
}

/// One field, with this value.
fn one_field<'a>(alloc: Global, value: Operand<'a>) -> Result<Fields<'a>, AllocError>
    ensures { IfOk result (λ os. os ≡ Some value.entry ∷ []) }
{
    let mut fields = Fields::with_capacity(alloc, 1)?;
    fields.push(Some(value))?;
    Ok(fields)
}

/// The instance whose files are a depset that is empty or of Files.
fn info_of_files<'a>(
    alloc: Global,
    state: &mut State<'a>,
    provider: &Shared<Provider>,
    files: &Operand<'a>,
) -> Result<Value, Broken>
    ensures { Does (info_with provider.now (Some files.now)) state.old result state.new }
{
    if !are_files(&state.heap.see_item(files.item())) {
        return Err(Broken::Kind(Kind::Wrong));
    }
    let files = files.share()?;
    with_files(alloc, state, provider, files)
}

/// Whether a value is a depset that is empty or of Files.
fn are_files(value: &Seen<'_, '_>) -> bool
    ensures { result ≡ is_ok (files_in (seen value.now)) }
{
    match value {
        Seen::Leaf(LeafRef::Depset(depset)) => has_only_files(depset),
        _ => false,
    }
}

/// Whether a depset is empty or of Files.
pub fn has_only_files(depset: &Depset) -> bool
    ensures { result ≡ all_of_type ElementType.File (elements depset.now) }
{
    match depset.element_type() {
        Some(ElementType::File) => true,
        Some(_) => false,
        None => true,
    }
}

/// The instance whose files are a new depset without elements.
fn info_without_files(
    alloc: Global,
    state: &mut State,
    provider: &Shared<Provider>,
) -> Result<Value, Broken>
    ensures { Does (with_new_files provider.now) state.old result state.new }
{
    let made = state.depsets;
    let direct = Vec::new(alloc);
    let files = new_depset(alloc, state, Order::Default, direct, Vec::new(alloc))?;
    match with_files(alloc, state, provider, Operand::own(files)) {
        Ok(instance) => Ok(instance),
        Err(broken) => {
            state.depsets = made;
            Err(broken)
        }
    }
}
