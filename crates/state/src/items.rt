//! Items of strings, lists, tuples and dicts.
ghost use Rattle.std.specs.Prelude.{◌≡◌, ◌<◌, ◌∷◌, [], Ok, Err, Some, None, IfOk};
ghost use Rattle.std.specs.Prelude.{option_copied};
ghost use Rattle.values.specs.Seeing.{seen, item_value, group_items, table_entries};
ghost use Rattle.operations.specs.States.{Does, Gives};
ghost use Rattle.operations.specs.Reading.{of_type};
ghost use Rattle.operations.specs.Making.{text};
ghost use Rattle.operations.specs.Items.{item, item_in, item_at, value_at, key_item, byte_at};
ghost use Rattle.operations.specs.Items.{byte_text};

use crate::reading::{key_of, number_of};
use numbers::place;
use operands::Operand;
use operations::State;
use plain::Text;
use std::alloc::{AllocError, Global};
use values::{Broken, Group, Item, Key, Kind, Seen, Table, Value};

/// `base[index]` of a string, a list, a tuple or a dict. An item of a base that is lent is lent.
///
/// # Errors
///
/// `type`, where the base has no items or the index isn't one of it; then `index`, or of a dict
/// `key`. `NoMemory` where memory was refused.
#[inline(always)]
pub fn item<'a>(
    alloc: Global,
    state: &State<'a>,
    base: &Operand<'a>,
    index: Item<'_>,
) -> Result<Operand<'a>, Broken>
    ensures { Does (item base.now (item_value index.entry)) state.now result state.now }
{
    item_in(alloc, &state.heap.see(base), &state.heap.see_item(index))
}

/// The item of what a base shows.
#[inline(always)]
fn item_in<'a>(
    alloc: Global,
    base: &Seen<'_, 'a>,
    index: &Seen<'_, '_>,
) -> Result<Operand<'a>, Broken>
    ensures { Gives (item_in (seen base.now) (seen index.now)) result }
{
    match base {
        Seen::Key(key) => key_item(alloc, key, number_of(index)),
        Seen::List(items) => indexed(*items, number_of(index)),
        Seen::Tuple(items) => indexed(*items, number_of(index)),
        Seen::Dict(entries) => keyed(*entries, key_of(index)),
        _ => Err(Broken::Kind(Kind::Wrong)),
    }
}

/// The byte of a string at an index, as a string.
fn key_item<'a>(alloc: Global, key: &Key, index: Option<i64>) -> Result<Operand<'a>, Broken>
    ensures { Gives (key_item key.now index) result }
{
    match (key, index) {
        (Key::Text(text), Some(index)) => byte_at(alloc, text, index),
        _ => Err(Broken::Kind(Kind::Wrong)),
    }
}

/// The byte at an index, as a string, or `index`.
fn byte_at<'a>(alloc: Global, text: &Text, index: i64) -> Result<Operand<'a>, Broken>
    ensures { Gives (byte_at text.now index) result }
{
    let bytes = text.as_str().as_bytes();
    match place(index, bytes.len()) {
        Some(place) => byte_text(alloc, bytes[place]),
        None => Err(Broken::Kind(Kind::Index)),
    }
}

/// A byte as a string.
fn byte_text<'a>(alloc: Global, byte: u8) -> Result<Operand<'a>, Broken>
    ensures { Gives (byte_text (Some byte)) result }
{
    if byte >= 128 {
        return Err(Broken::Kind(Kind::Index));
    }
    let text = one_byte(alloc, byte)?;
    Ok(Operand::own(Value::Key(Key::Text(text))))
}

/// A text of one byte.
fn one_byte(alloc: Global, byte: u8) -> Result<Text, AllocError>
    requires { byte < 128 }
    ensures { IfOk result (λ t. t ≡ byte ∷ []) }
{
    let mut bytes = String::new(alloc);
    bytes.push(char::from(byte))?;
    Text::from_string(bytes)
}

/// The item at an index, or `type` where there is no index.
#[inline(always)]
fn indexed<'a>(items: Group<'_, 'a>, index: Option<i64>) -> Result<Operand<'a>, Broken>
    ensures { Gives (of_type index (item_at (group_items items.entry))) result }
{
    match index {
        Some(index) => item_at(items, index),
        None => Err(Broken::Kind(Kind::Wrong)),
    }
}

/// The item at an index, from the end where it is negative, or `index`.
#[inline(always)]
fn item_at<'a>(items: Group<'_, 'a>, index: i64) -> Result<Operand<'a>, Broken>
    ensures { Gives (item_at (group_items items.entry) index) result }
{
    match place(index, items.len()) {
        Some(place) => Ok(items.operand(place)?),
        None => Err(Broken::Kind(Kind::Index)),
    }
}

/// The value of a key, or `type` where there is no key.
fn keyed<'a>(entries: Table<'_, 'a>, key: Option<&Key>) -> Result<Operand<'a>, Broken>
    ensures { Gives (of_type (option_copied key.entry) (value_at (table_entries entries.entry)))
        result }
{
    match key {
        Some(key) => value_at(entries, key),
        None => Err(Broken::Kind(Kind::Wrong)),
    }
}

/// The value of a key, or `key`.
fn value_at<'a>(entries: Table<'_, 'a>, key: &Key) -> Result<Operand<'a>, Broken>
    ensures { Gives (value_at (table_entries entries.entry) key.now) result }
{
    match entries.operand(key)? {
        Some(value) => Ok(value),
        None => Err(Broken::Kind(Kind::Key)),
    }
}
