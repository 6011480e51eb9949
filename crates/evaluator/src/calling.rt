//! Calls of what isn't written in Starlark.
ghost use Rattle.leaves.specs.Lent.{leaf_at};
ghost use Rattle.std.specs.Prelude.{◌≡◌, Err, Some, None};
ghost use Rattle.values.specs.Seeing.{item_value};
ghost use Rattle.leaves.specs.declared.leaf.Leaf.{Leaf as Plain};
ghost use Rattle.operations.specs.Arguments.{given};
ghost use Rattle.language.specs.Language.{call_of, value_call, leaf_call, leaf_of, or_place};
ghost use Rattle.language.specs.Language.{given_of};
ghost use Rattle.language.specs.Language.{method_or_place, place_method, of_place};
ghost use Rattle.operations.specs.Calls.{built_in_call};
ghost use Rattle.operations.specs.Fields.{shape_method};
ghost use Rattle.values.specs.Shape.{shape};
ghost use Rattle.ticks.specs.Ticking.{Says};
ghost use Rattle.frames.specs.Answers.{callee_seen, given as machine_given};

use crate::world::World;
use field_names::FieldName;
use finding::method_named;
use frames::{Callee, Stack};
use language::{Link, Place, Whole};
use language_calls::{leaf_of, of_place};
use operands::{Operand, owned};
use operations::Arguments;
use plain::Text;
use std::mem::replace;
use values::{Broken, BuiltIn, Item, Kind, LeafRef, Value};

/// A call of what isn't written in Starlark: its values by position, of which the first is at the
/// top, and those by name with their names. They are left where they were, in another order, so
/// that their memory serves again.
#[inline(always)]
pub(crate) fn call<'a, L: Link<'a>, P: Place<'a>>(
    world: &World<'a, L, P>,
    whole: &mut Whole<'a, P::Work>,
    callee: &Callee<'a>,
    items: &mut Stack<Operand<'a>>,
    names: &[Text],
    named: Stack<Operand<'a>>,
) -> Result<Operand<'a>, Broken>
    ensures { Says (call_of (L.linked world.now.linked.now) (P.place world.now.place.now)
        (callee_seen callee.now) (given_of (machine_given items.old names.now named.entry))
        whole.old) result whole.new }
{
    let places = replace(items, Stack::new(world.alloc)).into_vec();
    let values = named.into_vec();
    let arguments = arguments(&places, names, &values);
    let answer = call_with(world, whole, callee, &arguments);
    let _none = replace(items, Stack::of(places));
    answer
}

/// Arguments where they lie. A name without a value, or a value without a name, is none.
fn arguments<'a, 'v>(
    items: &'a [Operand<'v>],
    names: &'a [Text],
    values: &'a [Operand<'v>],
) -> Arguments<'a, 'v>
    ensures { given result ≡ given_of (machine_given items.now names.now values.now) }
{
    if names.len() <= values.len() {
        let values = &values[..names.len()];
        Arguments {
            items,
            names,
            values,
        }
    } else {
        let names = &names[..values.len()];
        Arguments {
            items,
            names,
            values,
        }
    }
}

/// A call with arguments.
#[inline(always)]
fn call_with<'a, L: Link<'a>, P: Place<'a>>(
    world: &World<'a, L, P>,
    whole: &mut Whole<'a, P::Work>,
    callee: &Callee<'a>,
    arguments: &Arguments<'_, 'a>,
) -> Result<Operand<'a>, Broken>
    ensures { Says (call_of (L.linked world.now.linked.now) (P.place world.now.place.now)
        (callee_seen callee.now) (given arguments.now) whole.old) result whole.new }
{
    match callee {
        Callee::Plain(value) => owned(call_value(world, whole, value.item(), arguments)),
        Callee::Method(value, name) => call_method(world, whole, value, name, arguments),
    }
}

/// A call of a value.
fn call_value<'a, L: Link<'a>, P: Place<'a>>(
    world: &World<'_, L, P>,
    whole: &mut Whole<'a, P::Work>,
    value: Item<'_>,
    arguments: &Arguments<'_, 'a>,
) -> Result<Value, Broken>
    ensures { Says (value_call (L.linked world.now.linked.now) (P.place world.now.place.now)
        (item_value value.entry) (given arguments.now) whole.old) result whole.new }
{
    match leaf_of(value) {
        Some(leaf) => call_leaf(world, whole, leaf, arguments),
        None => Err(Broken::Kind(Kind::Wrong)),
    }
}

/// A call of a built-in function, a provider or a rule.
#[inline(always)]
fn call_leaf<'a, L: Link<'a>, P: Place<'a>>(
    world: &World<'_, L, P>,
    whole: &mut Whole<'a, P::Work>,
    leaf: LeafRef<'_>,
    arguments: &Arguments<'_, 'a>,
) -> Result<Value, Broken>
    ensures { Says (leaf_call (L.linked world.now.linked.now) (P.place world.now.place.now)
        (leaf_at leaf.entry) (given arguments.now) whole.old) result whole.new }
{
    match leaf {
        LeafRef::BuiltIn(function) => call_built_in(world, whole, function, arguments),
        LeafRef::Provider(provider) => {
            calls::call_provider(world.alloc, &mut whole.state, provider, arguments)
        }
        LeafRef::Rule(_) => world.place.call(world.alloc, whole, leaf, arguments),
        _ => Err(Broken::Kind(Kind::Wrong)),
    }
}

/// A call of a built-in function, which may be one of the place.
#[inline(always)]
fn call_built_in<'a, L: Link<'a>, P: Place<'a>>(
    world: &World<'_, L, P>,
    whole: &mut Whole<'a, P::Work>,
    function: BuiltIn,
    arguments: &Arguments<'_, 'a>,
) -> Result<Value, Broken>
    ensures { Says (or_place (L.linked world.now.linked.now) (P.place world.now.place.now)
        (Plain.BuiltIn function) (given arguments.now)
        (built_in_call function (given arguments.now)) whole.old) result whole.new }
{
    match calls::call_built_in(world.alloc, &mut whole.state, function, arguments) {
        Some(answer) => answer,
        None => call_at_place(world, whole, function, arguments),
    }
}

/// A call of a built-in function that the language leaves to the place.
fn call_at_place<'a, L: Link<'a>, P: Place<'a>>(
    world: &World<'_, L, P>,
    whole: &mut Whole<'a, P::Work>,
    function: BuiltIn,
    arguments: &Arguments<'_, 'a>,
) -> Result<Value, Broken>
    ensures { Says ((P.place world.now.place.now).call (Plain.BuiltIn function)
        (given arguments.now) whole.old) result whole.new }
{
    world
        .place
        .call(world.alloc, whole, LeafRef::BuiltIn(function), arguments)
}

/// A call of a method of a value.
fn call_method<'a, L: Link<'a>, P: Place<'a>>(
    world: &World<'a, L, P>,
    whole: &mut Whole<'a, P::Work>,
    value: &Operand<'a>,
    name: &FieldName,
    arguments: &Arguments<'_, 'a>,
) -> Result<Operand<'a>, Broken>
    ensures { Says (method_or_place (L.linked world.now.linked.now) (P.place world.now.place.now)
        (shape_method (shape whole.old.state.heap value.now) name.now) value.now name.now
        (given arguments.now) whole.old) result whole.new }
{
    match method_named(&whole.state.heap.see_item(value.item()), name) {
        Some(method) => {
            calls::call_method(
                world.alloc,
                world.kept,
                &mut whole.state,
                method,
                value,
                arguments,
            )
        }
        None => owned(call_placed(world, whole, value.item(), name, arguments)),
    }
}

/// A call of a method of a target or an object.
fn call_placed<'a, L: Link<'a>, P: Place<'a>>(
    world: &World<'_, L, P>,
    whole: &mut Whole<'a, P::Work>,
    value: Item<'_>,
    name: &FieldName,
    arguments: &Arguments<'_, 'a>,
) -> Result<Value, Broken>
    ensures { Says (place_method (L.linked world.now.linked.now) (P.place world.now.place.now)
        (of_place (item_value value.entry)) name.now (given arguments.now) whole.old) result
        whole.new }
{
    match of_place(value) {
        Some(leaf) => world
            .place
            .method(world.alloc, whole, leaf, name, arguments),
        None => Err(Broken::Kind(Kind::Name)),
    }
}
