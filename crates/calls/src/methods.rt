//! The methods of lists, dicts, strings and depsets.
ghost use Rattle.std.specs.Prelude.{Ok, Err, Some, None};
ghost use Rattle.values.specs.Shape.{shape};
ghost use Rattle.values.specs.Seeing.{item_value};
ghost use Rattle.operations.specs.States.{Does};
ghost use Rattle.operations.specs.Reading.{string_in, depset_in};
ghost use Rattle.operations.specs.Making.{entries_in};
ghost use Rattle.operations.specs.Changes.{append, extend};
ghost use Rattle.operations.specs.Arguments.{given, positions};
ghost use Rattle.operations.specs.Methods.{with_one, with_none, keys, values, pairs};
ghost use Rattle.operations.specs.Depsets.{to_list};
ghost use Rattle.operations.specs.Strings.{split, join, starts_with, ends_with};
ghost use Rattle.operations.specs.Calls.{of_text, of_depset, method_of, method_call};

use crate::affixes::{ends_with, starts_with};
use crate::arguments::{only, positions};
use crate::dicts::{get, keys, values};
use crate::joins::join;
use crate::pairs::items;
use crate::receivers::{depset_of, string_of};
use crate::splits::split;
use arena::Arena;
use operands::{Operand, owned};
use operations::{Arguments, Method, State};
use std::alloc::Global;
use values::{Broken, Depset, Item, Kind, Value};

/// The call of a method of a list, a dict, a string or a depset. What `get` finds in a dict that is
/// lent is lent, and so is a default that is. A depset of the evaluation's own that is listed is
/// kept, so that it lends what the list holds.
///
/// # Errors
///
/// `arity`, where an argument has a name or their number doesn't fit; then the faults of the method
/// (`docs/PROFILE.md`, "Calls of the language"). `NoMemory` where memory was refused.
pub fn call_method<'a>(
    alloc: Global,
    kept: &'a Arena<Depset>,
    state: &mut State<'a>,
    method: Method,
    receiver: &Operand<'a>,
    arguments: &Arguments<'_, 'a>,
) -> Result<Operand<'a>, Broken>
    ensures { Does (method_call method receiver.now (given arguments.now)) state.old result
        state.new }
{
    match positions(arguments) {
        Ok(values) => method_of(alloc, kept, state, method, receiver, values),
        Err(kind) => Err(Broken::Kind(kind)),
    }
}

/// The same, of positions alone.
fn method_of<'a>(
    alloc: Global,
    kept: &'a Arena<Depset>,
    state: &mut State<'a>,
    method: Method,
    receiver: &Operand<'a>,
    items: &[Operand<'a>],
) -> Result<Operand<'a>, Broken>
    ensures { Does (method_of method receiver.now items.now) state.old result state.new }
{
    let of = receiver.item();
    match method {
        Method::Append => owned(append_one(state, of, items)),
        Method::Extend => owned(extend_one(alloc, state, of, items)),
        Method::Get => get(state, receiver, items),
        Method::Keys => owned(keys_of(alloc, state, receiver, items)),
        Method::Values => owned(values_of(alloc, state, receiver, items)),
        Method::Items => owned(pairs_of(alloc, state, receiver, items)),
        Method::Join => owned(join_one(alloc, state, of, items)),
        Method::Split => owned(split_one(alloc, state, of, items)),
        Method::StartsWith => owned(starts_with_one(state, of, items)),
        Method::EndsWith => owned(ends_with_one(state, of, items)),
        Method::ToList => owned(list_of(alloc, kept, state, receiver, items)),
    }
}

fn append_one<'a>(
    state: &mut State<'a>,
    list: Item<'_>,
    items: &[Operand<'a>],
) -> Result<Value, Broken>
    ensures { Does (with_one (append (item_value list.entry)) items.now) state.old result
        state.new }
{
    let Some(added) = only(items) else {
        return Err(Broken::Kind(Kind::Arity));
    };
    let added = added.share()?;
    let list = list.to_value()?;
    state::append(state, &list, added)
}

fn extend_one<'a>(
    alloc: Global,
    state: &mut State<'a>,
    list: Item<'_>,
    items: &[Operand<'a>],
) -> Result<Value, Broken>
    ensures { Does (with_one (extend (item_value list.entry)) items.now) state.old result
        state.new }
{
    match only(items) {
        Some(sequence) => {
            let list = list.to_value()?;
            state::extend(alloc, state, &list, sequence)
        }
        None => Err(Broken::Kind(Kind::Arity)),
    }
}

fn keys_of<'a>(
    alloc: Global,
    state: &mut State<'a>,
    dict: &Operand<'a>,
    items: &[Operand<'_>],
) -> Result<Value, Broken>
    ensures { Does (with_none (keys (entries_in (shape state.old.heap dict.now)))
        items.now) state.old result state.new }
{
    if !items.is_empty() {
        return Err(Broken::Kind(Kind::Arity));
    }
    keys(alloc, state, dict)
}

fn values_of<'a>(
    alloc: Global,
    state: &mut State<'a>,
    dict: &Operand<'a>,
    items: &[Operand<'_>],
) -> Result<Value, Broken>
    ensures { Does (with_none (values (entries_in (shape state.old.heap dict.now)))
        items.now) state.old result state.new }
{
    if !items.is_empty() {
        return Err(Broken::Kind(Kind::Arity));
    }
    values(alloc, state, dict)
}

fn pairs_of<'a>(
    alloc: Global,
    state: &mut State<'a>,
    dict: &Operand<'a>,
    arguments: &[Operand<'_>],
) -> Result<Value, Broken>
    ensures { Does (with_none (pairs (entries_in (shape state.old.heap dict.now)))
        arguments.now) state.old result state.new }
{
    if !arguments.is_empty() {
        return Err(Broken::Kind(Kind::Arity));
    }
    items(alloc, state, dict)
}

fn join_one(
    alloc: Global,
    state: &State,
    receiver: Item<'_>,
    items: &[Operand<'_>],
) -> Result<Value, Broken>
    ensures { Does (of_text join (string_in (shape state.now.heap (item_value receiver.entry)))
        items.now) state.now result state.now }
{
    let Some(text) = string_of(receiver) else {
        return Err(Broken::Kind(Kind::Wrong));
    };
    match only(items) {
        Some(sequence) => join(alloc, state, text, sequence),
        None => Err(Broken::Kind(Kind::Arity)),
    }
}

fn split_one(
    alloc: Global,
    state: &mut State,
    receiver: Item<'_>,
    items: &[Operand<'_>],
) -> Result<Value, Broken>
    ensures { Does (of_text split (string_in (shape state.old.heap (item_value receiver.entry)))
        items.now) state.old result state.new }
{
    let Some(text) = string_of(receiver) else {
        return Err(Broken::Kind(Kind::Wrong));
    };
    match only(items) {
        Some(separator) => split(alloc, state, text, separator),
        None => Err(Broken::Kind(Kind::Arity)),
    }
}

fn starts_with_one(
    state: &State,
    receiver: Item<'_>,
    items: &[Operand<'_>],
) -> Result<Value, Broken>
    ensures { Does (of_text starts_with (string_in (shape state.now.heap
        (item_value receiver.entry))) items.now) state.now result state.now }
{
    let Some(text) = string_of(receiver) else {
        return Err(Broken::Kind(Kind::Wrong));
    };
    match only(items) {
        Some(front) => Ok(starts_with(state, text, front)?),
        None => Err(Broken::Kind(Kind::Arity)),
    }
}

fn ends_with_one(state: &State, receiver: Item<'_>, items: &[Operand<'_>]) -> Result<Value, Broken>
    ensures { Does (of_text ends_with (string_in (shape state.now.heap
        (item_value receiver.entry))) items.now) state.now result state.now }
{
    let Some(text) = string_of(receiver) else {
        return Err(Broken::Kind(Kind::Wrong));
    };
    match only(items) {
        Some(back) => Ok(ends_with(state, text, back)?),
        None => Err(Broken::Kind(Kind::Arity)),
    }
}

fn list_of<'a>(
    alloc: Global,
    kept: &'a Arena<Depset>,
    state: &mut State<'a>,
    receiver: &Operand<'a>,
    items: &[Operand<'_>],
) -> Result<Value, Broken>
    ensures { Does (of_depset (depset_in (shape state.old.heap receiver.now)) items.now) state.old
        result state.new }
{
    let Some(depset) = depset_of(alloc, kept, receiver)? else {
        return Err(Broken::Kind(Kind::Wrong));
    };
    if !items.is_empty() {
        return Err(Broken::Kind(Kind::Arity));
    }
    making::to_list(alloc, state, depset)
}
