//! Strings joined.
ghost use Rattle.std.specs.Prelude.{◌≡◌, Ok, Err, Some, None, MatchResult, map};
ghost use Rattle.strings.specs.Joining.{join_of};
ghost use Rattle.ticks.specs.Ticking.{FaultOr};
ghost use Rattle.values.specs.Seeing.{seen, group_items};
ghost use Rattle.operations.specs.States.{Does, Gives, then_give};
ghost use Rattle.operations.specs.Reading.{string_in};
ghost use Rattle.operations.specs.Making.{text};
ghost use Rattle.operations.specs.Depsets.{all_in, put_last};
ghost use Rattle.operations.specs.Strings.{join, or_string_fault};

use crate::splits::string_fault;
use heap::Heap;
use operands::Operand;
use operations::State;
use plain::Text;
use state::{sequence_of, text_of};
use std::alloc::Global;
use strings::StringRefusal;
use values::{Broken, Group, Key, Kind, Seen, Value};

/// `separator.join(sequence)`. All items are looked at before the size of the whole, and that
/// before anything is built.
///
/// # Errors
///
/// `type`, where it is no sequence of strings; then `large`. `NoMemory` where memory was refused.
pub fn join(
    alloc: Global,
    state: &State,
    separator: &Text,
    sequence: &Operand<'_>,
) -> Result<Value, Broken>
    ensures { Does (join separator.now sequence.now) state.now result state.now }
{
    let Some(items) = sequence_of(&state.heap.see_item(sequence.item())) else {
        return Err(Broken::Kind(Kind::Wrong));
    };
    join_items(alloc, &state.heap, separator, items)
}

/// The strings that items are, joined.
fn join_items<'b>(
    alloc: Global,
    heap: &'b Heap,
    separator: &Text,
    items: Group<'b, '_>,
) -> Result<Value, Broken>
    ensures { Gives (then_give (all_in string_in heap.now (group_items items.entry))
        (λ ts. then_give (or_string_fault (join_of separator.now ts)) (λ u. Ok (text u)))) result }
{
    let texts = texts(alloc, heap, items)?;
    join_texts(alloc, separator, &texts)
}

/// Texts joined, as a value.
fn join_texts(alloc: Global, separator: &Text, texts: &[&Text]) -> Result<Value, Broken>
    ensures { Gives (then_give
        (or_string_fault (join_of separator.now (map (λ t. t.now) texts.now)))
        (λ u. Ok (text u))) result }
{
    match strings::join(alloc, separator.as_str(), texts) {
        Ok(joined) => Ok(Value::Key(Key::Text(joined))),
        Err(StringRefusal::String(error)) => Err(Broken::Kind(string_fault(error))),
        Err(StringRefusal::NoMemory) => Err(Broken::NoMemory),
    }
}

/// The strings that items are, where they lie, or `type`.
fn texts<'b>(alloc: Global, heap: &'b Heap, items: Group<'b, '_>) -> Result<Vec<&'b Text>, Broken>
    ensures { MatchResult result (λ v. all_in string_in heap.now (group_items items.entry)
        ≡ Ok (map (λ t. t.now) v.items))
        (λ e. FaultOr (all_in string_in heap.now (group_items items.entry)) e) }
{
    let mut texts = Vec::with_capacity(alloc, items.len())?;
    for item in items {
        if let Err(broken) = put_text(&heap.see_item(item), &mut texts) {
            return Err(broken);
        }
    }
    Ok(texts)
}

/// Puts the string that a value is last, or `type`.
fn put_text<'b>(value: &Seen<'b, '_>, texts: &mut Vec<&'b Text>) -> Result<(), Broken>
    ensures { MatchResult result (λ _. put_last (map (λ t. t.now) texts.old.items)
        (string_in (seen value.now)) ≡ Ok (map (λ t. t.now) texts.new.items))
        (λ e. FaultOr (put_last (map (λ t. t.now) texts.old.items) (string_in (seen value.now)))
        e) }
{
    match text_of(value) {
        Some(text) => {
            if texts.push(text).is_err() {
                return Err(Broken::NoMemory);
            }
            Ok(())
        }
        None => Err(Broken::Kind(Kind::Wrong)),
    }
}
