//! What attributes restrict: `mandatory`, `values`, `providers` and `allow_files`. None stands for
//! what is of another type.
ghost use Rattle.std.specs.Prelude.{◌≡◌, ◌∷◌, [], IfOk, option_copied, option_map};
ghost use Rattle.values.specs.Seeing.{seen, group_items};
ghost use Rattle.values.specs.Shape.{shape};
ghost use Rattle.operations.specs.Reading.{string_in};
ghost use Rattle.targets.specs.RuleCalls.{each_of};
ghost use Rattle.declaring.specs.AttributeCalls.{truth_in, mandatory_in, values_in, provider_lists};
ghost use Rattle.declaring.specs.AttributeCalls.{providers_in, files_shown, allow_files_in};

use crate::lists::{keys, lists_of_providers, providers, strings};
use heap::Heap;
use operands::Operand;
use plain::Shared;
use state::sequence_of;
use std::alloc::{AllocError, Global};
use targets::{AllowFiles, Sequence};
use values::{AttributeKind, Group, Key, Provider, Seen};

/// What `mandatory` says: a bool.
pub(crate) fn mandatory_in(heap: &Heap, value: Option<&Operand<'_>>) -> Option<bool>
    ensures { result ≡ mandatory_in heap.now (option_copied value.entry) }
{
    match value {
        Some(value) => truth_in(&heap.see_item(value.item())),
        None => Some(false),
    }
}

/// A bool.
fn truth_in(value: &Seen<'_, '_>) -> Option<bool>
    ensures { result ≡ truth_in (seen value.now) }
{
    match value {
        Seen::Key(Key::Truth(truth)) => Some(*truth),
        _ => None,
    }
}

/// What `values` says: a sequence of strings or of whole numbers, as the kind has them.
pub(crate) fn values_in(
    alloc: Global,
    heap: &Heap,
    kind: AttributeKind,
    value: Option<&Operand<'_>>,
) -> Result<Option<Sequence<Key>>, AllocError>
    ensures { IfOk result (λ o. o ≡ values_in heap.now kind (option_copied value.entry)) }
{
    let Some(value) = value else {
        return Ok(Some(Sequence::new(alloc)));
    };
    match sequence_of(&heap.see_item(value.item())) {
        Some(items) => keys(alloc, heap, kind, items),
        None => Ok(None),
    }
}

/// What `providers` says: a sequence of providers, or of sequences of them.
pub(crate) fn providers_in(
    alloc: Global,
    heap: &Heap,
    value: Option<&Operand<'_>>,
) -> Result<Option<Sequence<Sequence<Shared<Provider>>>>, AllocError>
    ensures { IfOk result (λ o. o ≡ providers_in heap.now (option_copied value.entry)) }
{
    let Some(value) = value else {
        return Ok(Some(Sequence::new(alloc)));
    };
    match sequence_of(&heap.see_item(value.item())) {
        Some(items) => provider_lists(alloc, heap, items),
        None => Ok(None),
    }
}

/// One list of providers, or several.
fn provider_lists<'b>(
    alloc: Global,
    heap: &'b Heap,
    items: Group<'b, '_>,
) -> Result<Option<Sequence<Sequence<Shared<Provider>>>>, AllocError>
    ensures { IfOk result (λ o. o ≡ provider_lists heap.now (group_items items.entry)) }
{
    if items.len() == 0 {
        return Ok(Some(Sequence::new(alloc)));
    }
    match providers(alloc, heap, items)? {
        Some(providers) => Ok(Some(one_list(alloc, providers)?)),
        None => lists_of_providers(alloc, heap, items),
    }
}

/// One list.
fn one_list(
    alloc: Global,
    providers: Sequence<Shared<Provider>>,
) -> Result<Sequence<Sequence<Shared<Provider>>>, AllocError>
    ensures { IfOk result (λ lists. lists ≡ providers ∷ []) }
{
    let mut lists = Sequence::new(alloc);
    lists.push(providers)?;
    Ok(lists)
}

/// What `allow_files` says: a bool, or a sequence of strings.
pub(crate) fn allow_files_in(
    alloc: Global,
    heap: &Heap,
    value: Option<&Operand<'_>>,
) -> Result<Option<AllowFiles>, AllocError>
    ensures { IfOk result (λ o. o ≡ allow_files_in heap.now (option_copied value.entry)) }
{
    match value {
        Some(value) => files_shown(alloc, heap, &heap.see_item(value.item())),
        None => Ok(Some(AllowFiles::Nothing)),
    }
}

/// Which files a bool or a sequence of strings allows.
fn files_shown(
    alloc: Global,
    heap: &Heap,
    value: &Seen<'_, '_>,
) -> Result<Option<AllowFiles>, AllocError>
    ensures { IfOk result (λ o. o ≡ files_shown heap.now (seen value.now)) }
{
    match value {
        Seen::Key(Key::Truth(true)) => Ok(Some(AllowFiles::Any)),
        Seen::Key(Key::Truth(false)) => Ok(Some(AllowFiles::Nothing)),
        Seen::List(items) => files_ending(alloc, heap, *items),
        Seen::Tuple(items) => files_ending(alloc, heap, *items),
        _ => Ok(None),
    }
}

/// Files whose paths end with one of the strings that items are.
fn files_ending<'b>(
    alloc: Global,
    heap: &'b Heap,
    items: Group<'b, '_>,
) -> Result<Option<AllowFiles>, AllocError>
    ensures { IfOk result (λ o. o ≡ option_map AllowFiles.Ending
        (each_of (λ v. string_in (shape heap.now v)) (group_items items.entry))) }
{
    match strings(alloc, heap, items)? {
        Some(endings) => Ok(Some(AllowFiles::Ending(endings))),
        None => Ok(None),
    }
}
