//! `range`.
ghost use Rattle.std.specs.Prelude.{◌≡◌, ◌++◌, ◌∷◌, [], Ok, Err, Some, None, IfOk};
ghost use Rattle.std.specs.Prelude.{OnOk, map};
ghost use Rattle.numbers.specs.Ranges.{range_of};
ghost use Rattle.operations.specs.States.{Does, Gives, then_give};
ghost use Rattle.operations.specs.Making.{number};
ghost use Rattle.operations.specs.Arguments.{given, positions};
ghost use Rattle.operations.specs.BuiltIns.{range, range_in, range_between, numbers};

use crate::arguments::positions;
use heap::Heap;
use numbers::RangeNumbers;
use operands::Operand;
use operations::{Arguments, Made, State};
use state::{number_of, place};
use std::alloc::{AllocError, Global};
use values::{Broken, Items, Key, Kind, Value};

/// `range(end)` and `range(first, end)`: a new list of the numbers from the first, or 0, on below
/// the end.
///
/// # Errors
///
/// `arity`; `type`, where they are no numbers; then `large`. `NoMemory` where memory was refused.
pub fn range(
    alloc: Global,
    state: &mut State,
    arguments: &Arguments<'_, '_>,
) -> Result<Value, Broken>
    ensures { Does (range (given arguments.now)) state.old result state.new }
{
    let made = range_of(alloc, &state.heap, arguments)?;
    place(state, made)
}

/// The numbers of the arguments' range.
fn range_of<'a>(
    alloc: Global,
    heap: &Heap,
    arguments: &Arguments<'_, '_>,
) -> Result<Made<'a>, Broken>
    ensures { Gives (then_give (positions (given arguments.now)) (range_in heap.now)) result }
{
    match positions(arguments) {
        Ok(values) => range_in(alloc, heap, values),
        Err(kind) => Err(Broken::Kind(kind)),
    }
}

/// The numbers up to the one value, or from the first of two to the second.
fn range_in<'a>(alloc: Global, heap: &Heap, values: &[Operand<'_>]) -> Result<Made<'a>, Broken>
    ensures { Gives (range_in heap.now values.now) result }
{
    match values {
        [] => Err(Broken::Kind(Kind::Arity)),
        [end] => range_between(alloc, Some(0), number_of(&heap.see_item(end.item()))),
        [first, end] => {
            range_between(
                alloc,
                number_of(&heap.see_item(first.item())),
                number_of(&heap.see_item(end.item())),
            )
        }
        [_, _, _, ..] => Err(Broken::Kind(Kind::Arity)),
    }
}

/// The numbers between two.
fn range_between<'a>(
    alloc: Global,
    first: Option<i64>,
    end: Option<i64>,
) -> Result<Made<'a>, Broken>
    ensures { Gives (range_between first end) result }
{
    match (first, end) {
        (Some(first), Some(end)) => numbers(alloc, numbers::range(first, end)),
        _ => Err(Broken::Kind(Kind::Wrong)),
    }
}

/// The numbers of a range, unless there are more than a list may have.
fn numbers<'a>(alloc: Global, range: Option<RangeNumbers>) -> Result<Made<'a>, Broken>
    ensures { Gives (numbers range) result }
{
    match range {
        Some(range) => Ok(Made::List(number_items(alloc, range)?)),
        None => Err(Broken::Kind(Kind::Large)),
    }
}

/// Numbers as values.
fn number_items<'a>(alloc: Global, numbers: RangeNumbers) -> Result<Items<'a>, AllocError>
    ensures { IfOk result (λ items. items ≡ map number numbers) }
{
    let mut items = Items::with_capacity(alloc, numbers.len())?;
    for number in numbers {
        put_number(number, &mut items)?;
    }
    Ok(items)
}

/// Puts a number last, as a value.
fn put_number(value: i64, items: &mut Items) -> Result<(), AllocError>
    ensures { OnOk result (items.new ≡ items.old ++ number value ∷ []) }
{
    items.push(Operand::own(Value::Key(Key::Number(value))))?;
    Ok(())
}
