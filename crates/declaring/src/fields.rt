//! The fields of a provider.
ghost use Rattle.std.specs.Prelude.{◌≡◌, [], IfOk, option_and_then};
ghost use Rattle.values.specs.Seeing.{seen, group_items, table_entries, item_value};
ghost use Rattle.values.specs.Shape.{shape};
ghost use Rattle.targets.specs.RuleCalls.{each_of};
ghost use Rattle.declaring.specs.NewNames.{name_in};
ghost use Rattle.declaring.specs.ProviderCalls.{are_distinct, if_distinct, documented_name};
ghost use Rattle.declaring.specs.ProviderCalls.{fields_in};

use crate::lists::{name_in, names};
use heap::Heap;
use indexmap::IndexSet;
use plain::Text;
use state::text_of;
use std::alloc::{AllocError, Global};
use values::{Group, Item, Key, Names, Seen, Table};

/// The fields that a value says: a sequence of distinct names, or a dict from names to strings;
/// None for another value.
pub(crate) fn fields_in(
    alloc: Global,
    heap: &Heap,
    value: &Seen<'_, '_>,
) -> Result<Option<Names>, AllocError>
    ensures { IfOk result (λ o. o ≡ fields_in heap.now (seen value.now)) }
{
    match value {
        Seen::List(items) => distinct_names(alloc, heap, *items),
        Seen::Tuple(items) => distinct_names(alloc, heap, *items),
        Seen::Dict(entries) => documented_names(alloc, heap, *entries),
        _ => Ok(None),
    }
}

/// Names that are distinct.
fn distinct_names<'b>(
    alloc: Global,
    heap: &'b Heap,
    items: Group<'b, '_>,
) -> Result<Option<Names>, AllocError>
    ensures { IfOk result (λ o. o ≡ option_and_then if_distinct
        (each_of (λ v. name_in (shape heap.now v)) (group_items items.entry))) }
{
    let Some(names) = names(alloc, heap, items)? else {
        return Ok(None);
    };
    if !are_distinct(alloc, names.as_slice())? {
        return Ok(None);
    }
    Ok(Some(names))
}

/// Puts names into a set without any, and tells whether none of them is there twice.
fn are_new(seen: &mut IndexSet<Text>, names: &[Text]) -> Result<bool, AllocError>
    requires { seen.old.keys ≡ [] }
    ensures { IfOk result (λ b. b ≡ are_distinct names.now) }
{
    for name in names {
        let is_new = seen.insert(name.share()?)?;
        if !is_new {
            return Ok(false);
        }
    }
    Ok(true)
}

/// Whether no name is there twice.
fn are_distinct(alloc: Global, names: &[Text]) -> Result<bool, AllocError>
    ensures { IfOk result (λ b. b ≡ are_distinct names.now) }
{
    let mut seen = IndexSet::new(alloc);
    let are_new = are_new(&mut seen, names)?;
    Ok(are_new)
}

/// The names of entries whose values are strings.
fn documented_names<'b>(
    alloc: Global,
    heap: &'b Heap,
    entries: Table<'b, '_>,
) -> Result<Option<Names>, AllocError>
    ensures { IfOk result
        (λ o. o ≡ each_of (documented_name heap.now) (table_entries entries.entry)) }
{
    let mut names = Names::new(alloc);
    for (key, value) in entries {
        match documented_name(heap, key, value)? {
            Some(name) => names.push(name)?,
            None => return Ok(None),
        }
    }
    Ok(Some(names))
}

/// The name of an entry whose value is a string.
fn documented_name(heap: &Heap, key: &Key, value: Item<'_>) -> Result<Option<Text>, AllocError>
    ensures { IfOk result (λ o. o ≡ documented_name heap.now (key.now, item_value value.entry)) }
{
    match text_of(&heap.see_item(value)) {
        Some(_) => name_in(&Seen::Key(key)),
        None => Ok(None),
    }
}
