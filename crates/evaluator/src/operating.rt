//! Operators.
ghost use Rattle.std.specs.Prelude.{Ok, Err, Some, None};
ghost use Rattle.grammar.specs.TreeView.{operator_seen, sign_seen};
ghost use Rattle.values.specs.Seeing.{item_value};
ghost use Rattle.language.specs.Language.{target_of, with_target, sign_of};
ghost use Rattle.ticks.specs.Ticking.{Says};

use crate::world::World;
use grammar::{Operator, Sign};
use language::{Link, Place, Whole};
use language_calls::target_of;
use operands::Operand;
use values::{Broken, Item, Key, Value};

/// An operator between two values, but `and` and `or`.
#[inline(always)]
pub(crate) fn binary<'a, L: Link<'a>, P: Place<'a>>(
    world: &World<'_, L, P>,
    whole: &mut Whole<'a, P::Work>,
    operator: Operator,
    left: &Operand<'a>,
    right: &Operand<'a>,
) -> Result<Value, Broken>
    ensures { Says (with_target (L.linked world.now.linked.now) (P.place world.now.place.now)
        (operator_seen operator) left.now right.now (target_of right.now) whole.old) result
        whole.new }
{
    match target_of(right.item()) {
        Some(target) => binary_with(world, whole, operator, left, right, target),
        None => language_calls::binary(world.alloc, &mut whole.state, operator, left, right),
    }
}

/// An operator whose right side is a target.
fn binary_with<'a, L: Link<'a>, P: Place<'a>>(
    world: &World<'_, L, P>,
    whole: &mut Whole<'a, P::Work>,
    operator: Operator,
    left: &Operand<'a>,
    right: &Operand<'a>,
    target: usize,
) -> Result<Value, Broken>
    ensures { Says (with_target (L.linked world.now.linked.now) (P.place world.now.place.now)
        (operator_seen operator) left.now right.now (Some target) whole.old) result whole.new }
{
    match operator {
        Operator::In => {
            let offered = world.place.offers(whole, target, left.item())?;
            Ok(Value::Key(Key::Truth(offered)))
        }
        Operator::NotIn => {
            let offered = world.place.offers(whole, target, left.item())?;
            Ok(Value::Key(Key::Truth(!offered)))
        }
        _ => language_calls::binary(world.alloc, &mut whole.state, operator, left, right),
    }
}

/// `not` or `-`.
#[inline(always)]
pub(crate) fn sign<'a, L: Link<'a>, P: Place<'a>>(
    world: &World<'_, L, P>,
    whole: &Whole<'a, P::Work>,
    sign: Sign,
    value: Item<'_>,
) -> Result<Value, Broken>
    ensures { Says (sign_of (L.linked world.now.linked.now) (P.place world.now.place.now)
        (sign_seen sign) (item_value value.entry) whole.now) result whole.now }
{
    match sign {
        Sign::Not => {
            let truth = state::truth(&whole.state, value);
            Ok(Value::Key(Key::Truth(!truth)))
        }
        Sign::Minus => match state::negate(&whole.state, value) {
            Ok(value) => Ok(value),
            Err(kind) => Err(Broken::Kind(kind)),
        },
    }
}
