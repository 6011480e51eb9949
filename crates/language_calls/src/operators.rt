//! The operators of two values, where the right side is no target.
ghost use Rattle.std.specs.Prelude.{Ok, Err};
ghost use Rattle.grammar.specs.TreeView.{operator_seen};
ghost use Rattle.values.specs.Seeing.{item_value};
ghost use Rattle.operations.specs.States.{Does};
ghost use Rattle.operations.specs.Equality.{equals};
ghost use Rattle.operations.specs.Strings.{member};
ghost use Rattle.operations.specs.Operators.{calculate, compare};
ghost use Rattle.language.specs.Language.{as_truth, as_opposite, binary_of};

use grammar::Operator;
use numbers::Comparison;
use operands::Operand;
use operations::{Arithmetic, State};
use std::alloc::Global;
use values::{Broken, Item, Key, Kind, Value};

/// An operator between two values, but `and` and `or`, which no operation does: they are `type`
/// here.
///
/// # Errors
///
/// Those of the operator; `NoMemory` where memory was refused.
#[inline(always)]
pub fn binary<'a>(
    alloc: Global,
    state: &mut State<'a>,
    operator: Operator,
    left: &Operand<'a>,
    right: &Operand<'a>,
) -> Result<Value, Broken>
    ensures { Does (binary_of (operator_seen operator) left.now right.now) state.old result
        state.new }
{
    let x = left.item();
    let y = right.item();
    match operator {
        Operator::Equal => equal(state, x, y),
        Operator::NotEqual => not_equal(state, x, y),
        Operator::Less => compared(state, Comparison::Below, x, y),
        Operator::LessEqual => compared(state, Comparison::AtMost, x, y),
        Operator::Greater => compared(state, Comparison::Above, x, y),
        Operator::GreaterEqual => compared(state, Comparison::AtLeast, x, y),
        Operator::In => within(state, x, y),
        Operator::NotIn => not_within(state, x, y),
        Operator::Add => state::plus(alloc, state, left, right),
        Operator::Subtract => calculated(state, Arithmetic::Minus, x, y),
        Operator::Multiply => calculated(state, Arithmetic::Times, x, y),
        Operator::FloorDivide => calculated(state, Arithmetic::FloorDiv, x, y),
        Operator::Remainder => calculated(state, Arithmetic::Modulo, x, y),
        Operator::Or | Operator::And => Err(Broken::Kind(Kind::Wrong)),
    }
}

/// `left == right`.
#[inline(always)]
fn equal(state: &mut State, left: Item<'_>, right: Item<'_>) -> Result<Value, Broken>
    ensures { Does (as_truth (equals (item_value left.entry) (item_value right.entry))) state.old
        result state.new }
{
    let same = state::equals(state, left, right)?;
    Ok(Value::Key(Key::Truth(same)))
}

/// `left != right`.
#[inline(always)]
fn not_equal(state: &mut State, left: Item<'_>, right: Item<'_>) -> Result<Value, Broken>
    ensures { Does (as_opposite (equals (item_value left.entry) (item_value right.entry))) state.old
        result state.new }
{
    let same = state::equals(state, left, right)?;
    Ok(Value::Key(Key::Truth(!same)))
}

/// `left < right` and its like.
#[inline(always)]
fn compared(
    state: &State,
    operator: Comparison,
    left: Item<'_>,
    right: Item<'_>,
) -> Result<Value, Broken>
    ensures { Does (as_truth (compare operator (item_value left.entry) (item_value right.entry)))
        state.now result state.now }
{
    let holds = state::compare(state, operator, left, right)?;
    Ok(Value::Key(Key::Truth(holds)))
}

/// `left in right`.
#[inline(always)]
fn within(state: &mut State, left: Item<'_>, right: Item<'_>) -> Result<Value, Broken>
    ensures { Does (as_truth (member (item_value left.entry) (item_value right.entry))) state.old
        result state.new }
{
    let held = calls::member(state, left, right)?;
    Ok(Value::Key(Key::Truth(held)))
}

/// `left not in right`.
#[inline(always)]
fn not_within(state: &mut State, left: Item<'_>, right: Item<'_>) -> Result<Value, Broken>
    ensures { Does (as_opposite (member (item_value left.entry) (item_value right.entry))) state.old
        result state.new }
{
    let held = calls::member(state, left, right)?;
    Ok(Value::Key(Key::Truth(!held)))
}

/// `left - right` and the other operators of whole numbers alone.
#[inline(always)]
fn calculated(
    state: &State,
    operator: Arithmetic,
    left: Item<'_>,
    right: Item<'_>,
) -> Result<Value, Broken>
    ensures { Does (calculate operator (item_value left.entry) (item_value right.entry)) state.now
        result state.now }
{
    let value = state::calculate(state, operator, left, right)?;
    Ok(value)
}
