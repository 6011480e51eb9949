//! The methods of dicts.
ghost use Rattle.std.specs.Prelude.{◌≡◌, [], Ok, Err, Some, None, IfOk, map};
ghost use Rattle.values.specs.Visits.{keys_of};
ghost use Rattle.values.specs.Shape.{shape};
ghost use Rattle.values.specs.Seeing.{seen, table_entries};
ghost use Rattle.operations.specs.States.{Does, Gives};
ghost use Rattle.operations.specs.Making.{entries_in, none};
ghost use Rattle.operations.specs.Items.{found, got};
ghost use Rattle.operations.specs.Methods.{get, keys, values};

use heap::Heap;
use operands::Operand;
use operations::State;
use state::{key_of, new_list};
use std::alloc::{AllocError, Global};
use values::{Broken, Items, Kind, Leaf, Seen, Table, Value};

/// `dict.get(key, default)`: the value of the key, or the default, which is None where it is
/// missing. The value of a key of a dict that is lent is lent, and so is a default that is.
///
/// # Errors
///
/// `arity`; `type`, where the key can't be one; `NoMemory` where a count is at its greatest.
pub fn get<'a>(
    state: &State<'a>,
    dict: &Operand<'a>,
    arguments: &[Operand<'a>],
) -> Result<Operand<'a>, Broken>
    ensures { Does (get (entries_in (shape state.now.heap dict.now)) arguments.now) state.now result
        state.now }
{
    match arguments {
        [] => Err(Broken::Kind(Kind::Arity)),
        [key] => got_or_none(&state.heap, dict, key),
        [key, default] => got(&state.heap, dict, default, key),
        [_, _, _, ..] => Err(Broken::Kind(Kind::Arity)),
    }
}

/// The value of a key, or None.
fn got_or_none<'a>(
    heap: &Heap<'a>,
    dict: &Operand<'a>,
    key: &Operand<'_>,
) -> Result<Operand<'a>, Broken>
    ensures { Gives (got (entries_in (shape heap.now dict.now)) none (shape heap.now key.now))
        result }
{
    let none = Operand::own(Value::Leaf(Leaf::None));
    got(heap, dict, &none, key)
}

/// The value of a key, or another.
fn got<'a>(
    heap: &Heap<'a>,
    dict: &Operand<'a>,
    default: &Operand<'a>,
    key: &Operand<'_>,
) -> Result<Operand<'a>, Broken>
    ensures { Gives (got (entries_in (shape heap.now dict.now)) default.now
        (shape heap.now key.now)) result }
{
    match found(heap, dict, key)? {
        Some(value) => Ok(value),
        None => Ok(default.share()?),
    }
}

/// The value of a key, if it is there.
fn found<'a>(
    heap: &Heap<'a>,
    dict: &Operand<'a>,
    key: &Operand<'_>,
) -> Result<Option<Operand<'a>>, Broken>
    ensures { Gives (found (entries_in (shape heap.now dict.now)) (shape heap.now key.now))
        result }
{
    found_in(&heap.see(dict), &heap.see_item(key.item()))
}

/// The value of a key of what a dict shows, if it is there.
fn found_in<'a>(dict: &Seen<'_, 'a>, key: &Seen<'_, '_>) -> Result<Option<Operand<'a>>, Broken>
    ensures { Gives (found (entries_in (seen dict.now)) (seen key.now)) result }
{
    let Some(key) = key_of(key) else {
        return Err(Broken::Kind(Kind::Wrong));
    };
    match dict {
        Seen::Dict(entries) => Ok(entries.operand(key)?),
        _ => Ok(None),
    }
}

/// `dict.keys()`: a new list.
///
/// # Errors
///
/// `NoMemory` where memory was refused; `large`, as of each new list, where the dict has more
/// entries than a list may have items, which no dict of an evaluation has.
pub fn keys<'a>(alloc: Global, state: &mut State<'a>, dict: &Operand<'a>) -> Result<Value, Broken>
    ensures { Does (keys (entries_in (shape state.old.heap dict.now))) state.old
        result state.new }
{
    let items = keys_in(alloc, &state.heap.see(dict))?;
    new_list(state, items)
}

pub(crate) fn keys_in<'a>(alloc: Global, dict: &Seen<'_, 'a>) -> Result<Items<'a>, AllocError>
    ensures { IfOk result (λ items. items ≡ map Value.Key (keys_of (entries_in (seen dict.now)))) }
{
    match dict {
        Seen::Dict(entries) => key_items(alloc, *entries),
        _ => Ok(Items::new(alloc)),
    }
}

/// The keys of entries, as values.
pub(crate) fn key_items<'a>(alloc: Global, entries: Table<'_, 'a>) -> Result<Items<'a>, AllocError>
    ensures { IfOk result (λ items. items ≡ map Value.Key (keys_of (table_entries entries.entry))) }
{
    let mut items = Items::with_capacity(alloc, entries.len())?;
    for place in 0..entries.len() {
        items.push(entries.key_at(place)?)?;
    }
    Ok(items)
}

/// `dict.values()`: a new list.
///
/// # Errors
///
/// `NoMemory` where memory was refused; `large`, as of each new list, where the dict has more
/// entries than a list may have items, which no dict of an evaluation has.
pub fn values<'a>(alloc: Global, state: &mut State<'a>, dict: &Operand<'a>) -> Result<Value, Broken>
    ensures { Does (values (entries_in (shape state.old.heap dict.now))) state.old
        result state.new }
{
    let items = values_in(alloc, &state.heap.see(dict))?;
    new_list(state, items)
}

pub(crate) fn values_in<'a>(alloc: Global, dict: &Seen<'_, 'a>) -> Result<Items<'a>, AllocError>
    ensures { IfOk result (λ items. items ≡ map (λ e. e.1) (entries_in (seen dict.now))) }
{
    match dict {
        Seen::Dict(entries) => value_items(alloc, *entries),
        _ => Ok(Items::new(alloc)),
    }
}

/// The values of entries.
fn value_items<'a>(alloc: Global, entries: Table<'_, 'a>) -> Result<Items<'a>, AllocError>
    ensures { IfOk result (λ items. items ≡ map (λ e. e.1) (table_entries entries.entry)) }
{
    let mut items = Items::with_capacity(alloc, entries.len())?;
    for place in 0..entries.len() {
        items.push(entries.value_at(place)?)?;
    }
    Ok(items)
}
