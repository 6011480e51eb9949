//! `len`, `str`, `list` and `fail`.
ghost use Rattle.std.specs.Prelude.{◌≡◌, pos, Ok, Err, Some, None};
ghost use Rattle.ticks.specs.Ticking.{Says};
ghost use Rattle.values.specs.Seeing.{seen, item_value};
ghost use Rattle.printing.specs.Repr.{repr_of};
ghost use Rattle.operations.specs.States.{Does, Gives};
ghost use Rattle.operations.specs.Reading.{of_type};
ghost use Rattle.operations.specs.Making.{number};
ghost use Rattle.operations.specs.BuiltIns.{len, size_in, str, list, listed_in, fail};
ghost use Rattle.calls.specs.NumberTexts.{number_told};

use crate::dicts::key_items;
use heap::Heap;
use itoa::Buffer;
use operands::Operand;
use operations::{Made, State};
use plain::Text;
use printing::{LARGEST_TEXT, repr};
use state::{copied, number_of, place, text_of};
use std::alloc::Global;
use values::{Broken, Item, Key, Kind, Seen, Ticks, VISITED_LEVELS, Value};

/// `len(value)`: the bytes of a string, the items of a list or a tuple, the entries of a dict.
///
/// # Errors
///
/// `type`, where it is another value.
pub fn len(state: &State, value: &Operand<'_>) -> Result<Value, Broken>
    ensures { Does (len value.now) state.now result state.now }
{
    let Some(size) = size_of(&state.heap.see_item(value.item())) else {
        return Err(Broken::Kind(Kind::Wrong));
    };
    size_value(size)
}

/// How many parts a value has.
fn size_of(value: &Seen<'_, '_>) -> Option<usize>
    ensures { result ≡ size_in (seen value.now) }
{
    match value {
        Seen::Key(Key::Text(text)) => Some(text.len()),
        Seen::List(items) => Some(items.len()),
        Seen::Tuple(items) => Some(items.len()),
        Seen::Dict(entries) => Some(entries.len()),
        _ => None,
    }
}

/// A size as a value. No value has more parts than a number can say.
fn size_value(size: usize) -> Result<Value, Broken>
    ensures { Gives (Ok (number (pos size))) result }
{
    if size > i64::MAX as usize {
        return Err(Broken::NoMemory);
    }
    Ok(Value::Key(Key::Number(size as i64)))
}

/// `str(value)`: a string itself, and the text of another value. Each value that is visited is a
/// tick.
///
/// # Errors
///
/// Of each value `steps`, `deep`, and `type` where it has no text; at the end `large`. `NoMemory`
/// where memory was refused.
pub fn str(alloc: Global, state: &mut State, value: &Operand<'_>) -> Result<Value, Broken>
    ensures { Does (str value.now) state.old result state.new }
{
    let text = text_of_item(alloc, value.item(), &state.heap, &mut state.ticks)?;
    Ok(Value::Key(Key::Text(text)))
}

/// The text that `str` gives.
fn text_of_item(
    alloc: Global,
    item: Item<'_>,
    heap: &Heap,
    ticks: &mut Ticks,
) -> Result<Text, Broken>
    ensures { Says (repr_of heap.now (item_value item.entry) ticks.old) result ticks.new }
{
    match number_of(&heap.see_item(item)) {
        Some(number) => number_text(alloc, number, ticks),
        None => printed_text(alloc, item, heap, ticks),
    }
}

/// The text of a number, after its visit. It is written in place, so that no memory is taken but
/// for the text.
fn number_text(alloc: Global, number: i64, ticks: &mut Ticks) -> Result<Text, Broken>
    ensures { Says (number_told number ticks.old) result ticks.new }
{
    if let Err(kind) = ticks.enter(VISITED_LEVELS) {
        return Err(Broken::Kind(kind));
    }
    let mut digits = Buffer::new();
    let digits = digits.format(number);
    if digits.len() > LARGEST_TEXT {
        return Err(Broken::Kind(Kind::Large));
    }
    let text = Text::new(alloc, digits)?;
    Ok(text)
}

/// The text of any value.
fn printed_text(
    alloc: Global,
    item: Item<'_>,
    heap: &Heap,
    ticks: &mut Ticks,
) -> Result<Text, Broken>
    ensures { Says (repr_of heap.now (item_value item.entry) ticks.old) result ticks.new }
{
    let text = repr(alloc, item, heap, ticks)?;
    Ok(Text::from_string(text)?)
}

/// `list(value)`: a new list of the items of a list or a tuple, or of the keys of a dict.
///
/// # Errors
///
/// `type`, where it is another value; `NoMemory` where memory was refused.
pub fn list<'a>(alloc: Global, state: &mut State<'a>, value: &Operand<'a>) -> Result<Value, Broken>
    ensures { Does (list value.now) state.old result state.new }
{
    let made = listed(alloc, &state.heap.see(value))?;
    place(state, made)
}

/// The items of a list or a tuple, or the keys of a dict, as those of a new list.
fn listed<'a>(alloc: Global, value: &Seen<'_, 'a>) -> Result<Made<'a>, Broken>
    ensures { Gives (of_type (listed_in (seen value.now)) (λ xs. Ok (Made.List xs))) result }
{
    match value {
        Seen::List(items) => Ok(Made::List(copied(alloc, *items)?)),
        Seen::Tuple(items) => Ok(Made::List(copied(alloc, *items)?)),
        Seen::Dict(entries) => Ok(Made::List(key_items(alloc, *entries)?)),
        _ => Err(Broken::Kind(Kind::Wrong)),
    }
}

/// `fail(text)`: the fault with this text.
///
/// # Errors
///
/// `type`, where it is no string; else `fail` itself, or `NoMemory` where the count of the text's
/// names is at its greatest.
pub fn fail(state: &State, value: &Operand<'_>) -> Result<Value, Broken>
    ensures { Does (fail value.now) state.now result state.now }
{
    let Some(text) = text_of(&state.heap.see_item(value.item())) else {
        return Err(Broken::Kind(Kind::Wrong));
    };
    let text = text.share()?;
    Err(Broken::Kind(Kind::Fail(text)))
}
