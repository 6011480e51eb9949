//! New lists, tuples and dicts, and what comprehensions and displays put into them.
ghost use Rattle.std.specs.Prelude.{◌≡◌, Ok, Err};
ghost use Rattle.values.specs.Shape.{shape};
ghost use Rattle.values.specs.Seeing.{seen, item_value};
ghost use Rattle.values.specs.Keyed.{has_key};
ghost use Rattle.operations.specs.Reading.{key_in};
ghost use Rattle.operations.specs.States.{Does};
ghost use Rattle.operations.specs.Making.{new_list, new_tuple, new_dict, placed, collect, keep};
ghost use Rattle.operations.specs.Making.{enter, entries_in, is_held};

use crate::changes::set_key;
use heap::Heap;
use operations::{Made, State};
use std::alloc::Global;
use values::{Broken, Entries, Item, Items, Kind, Operand, Seen, Value};

/// A new list of these items, or `large`.
///
/// # Errors
///
/// `large` where there are too many items; `NoMemory` where memory was refused.
pub fn new_list<'a>(state: &mut State<'a>, items: Items<'a>) -> Result<Value, Broken>
    ensures { Does (new_list items.entry) state.old result state.new }
{
    state.heap.new_list(items)
}

/// A new tuple of these items, or `large`.
///
/// # Errors
///
/// `large` where there are too many items; `NoMemory` where memory was refused.
pub fn new_tuple<'a>(state: &mut State<'a>, items: Items<'a>) -> Result<Value, Broken>
    ensures { Does (new_tuple items.entry) state.old result state.new }
{
    state.heap.new_tuple(items)
}

/// A new dict, without entries.
///
/// # Errors
///
/// `NoMemory` where memory was refused.
pub fn new_dict(alloc: Global, state: &mut State) -> Result<Value, Broken>
    ensures { Does new_dict state.old result state.new }
{
    let entries = Entries::with_capacity(alloc, 0)?;
    state.heap.new_dict(entries)
}

/// What an operation gave, at its place: a value of its own, or a new cell.
///
/// # Errors
///
/// `large` where there are too many items; `NoMemory` where memory was refused.
#[inline(always)]
pub fn place<'a>(state: &mut State<'a>, made: Made<'a>) -> Result<Value, Broken>
    ensures { Does (placed made.entry) state.old result state.new }
{
    match made {
        Made::Key(key) => Ok(Value::Key(key)),
        Made::Leaf(leaf) => Ok(Value::Leaf(leaf)),
        Made::List(items) => new_list(state, items),
        Made::Tuple(items) => new_tuple(state, items),
    }
}

/// An item more of a comprehension's list, or `large`.
///
/// # Errors
///
/// `large` where the list would have an item too many; `NoMemory` where memory was refused.
pub fn collect<'a>(state: &mut State<'a>, list: &Value, item: Operand<'a>) -> Result<(), Broken>
    ensures { Does (collect list.now item.entry) state.old result state.new }
{
    state.heap.append(list, item)
}

/// An entry more of a comprehension's dict: `type` where the key can't be one, or `large`. The
/// later value of a key stays.
///
/// # Errors
///
/// `type` where the key can't be one; `large` where the dict would have an entry too many;
/// `NoMemory` where memory was refused.
pub fn keep<'a>(
    state: &mut State<'a>,
    dict: &Value,
    key: &Operand<'a>,
    value: Operand<'a>,
) -> Result<(), Broken>
    ensures { Does (keep dict.now key.now value.entry) state.old result state.new }
{
    set_key(state, dict, key, value)
}

/// An entry more of a dict display: `type` where the key can't be one, then `key` where it is there
/// already.
///
/// # Errors
///
/// `type` where the key can't be one; `key` where the dict has it already; `large` where the dict
/// would have an entry too many; `NoMemory` where memory was refused.
pub fn enter<'a>(
    state: &mut State<'a>,
    dict: &Value,
    key: &Operand<'a>,
    value: Operand<'a>,
) -> Result<(), Broken>
    ensures { Does (enter dict.now key.now value.entry) state.old result state.new }
{
    if holds(&state.heap, dict, key.item()) {
        return Err(Broken::Kind(Kind::Key));
    }
    set_key(state, dict, key, value)
}

/// Whether a value is a dict that has the key.
fn holds(heap: &Heap, dict: &Value, key: Item<'_>) -> bool
    ensures { result ≡ is_held (entries_in (shape heap.now dict.now))
        (key_in (shape heap.now (item_value key.entry))) }
{
    has_key(&heap.see_item(dict.item()), &heap.see_item(key))
}

/// Whether a dict has the key that a value is.
fn has_key(dict: &Seen<'_, '_>, key: &Seen<'_, '_>) -> bool
    ensures { result ≡ is_held (entries_in (seen dict.now)) (key_in (seen key.now)) }
{
    match (dict, key) {
        (Seen::Dict(entries), Seen::Key(key)) => entries.get(key).is_some(),
        _ => false,
    }
}
