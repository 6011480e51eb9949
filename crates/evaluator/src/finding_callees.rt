//! What is called where a name of a value is called.
ghost use Rattle.leaves.specs.Lent.{leaf_at};
ghost use Rattle.std.specs.Prelude.{Ok, Err, Some, None};
ghost use Rattle.language.specs.Language.{of_place, find_of};
ghost use Rattle.frames.specs.Answers.{SaysAs, callee_seen};
ghost use Rattle.evaluator.specs.Callees.{callee_found};

use crate::world::World;
use field_names::FieldName;
use finding::Found;
use frames::Callee;
use language::{Link, Place, Whole};
use language_calls::of_place;
use operands::Operand;
use values::{Broken, LeafRef};

/// What `owner.name` is where it is called: of a target or an object its place's. The owner of a
/// method is moved, and its name lies in the code.
pub(crate) fn find<'a, L: Link<'a>, P: Place<'a>>(
    world: &World<'_, L, P>,
    whole: &Whole<'a, P::Work>,
    owner: Operand<'a>,
    name: &'a FieldName,
) -> Result<Callee<'a>, Broken>
    ensures { SaysAs callee_seen (find_of (L.linked world.now.linked.now)
        (P.place world.now.place.now) owner.entry name.now (of_place owner.entry) whole.now) result
        whole.now }
{
    match found(world, whole, &owner, name)? {
        Some(value) => Ok(Callee::Plain(value)),
        None => Ok(Callee::Method(owner, name)),
    }
}

/// The field that is called, or None where it is a method.
fn found<'a, L: Link<'a>, P: Place<'a>>(
    world: &World<'_, L, P>,
    whole: &Whole<'a, P::Work>,
    owner: &Operand<'a>,
    name: &FieldName,
) -> Result<Option<Operand<'a>>, Broken>
    ensures { SaysAs (callee_found owner.now name.now)
        (find_of (L.linked world.now.linked.now) (P.place world.now.place.now)
        owner.now name.now (of_place owner.now) whole.now) result whole.now }
{
    match of_place(owner.item()) {
        Some(leaf) => found_at_place(world, whole, owner, leaf, name),
        None => found_in_value(world, whole, owner, name),
    }
}

/// The same, of a target or an object.
fn found_at_place<'a, L: Link<'a>, P: Place<'a>>(
    world: &World<'_, L, P>,
    whole: &Whole<'a, P::Work>,
    _owner: &Operand<'a>,
    leaf: LeafRef<'_>,
    name: &FieldName,
) -> Result<Option<Operand<'a>>, Broken>
    ensures { SaysAs (callee_found _owner.now name.now)
        (find_of (L.linked world.now.linked.now) (P.place world.now.place.now)
        _owner.now name.now (Some (leaf_at leaf.entry)) whole.now) result whole.now }
{
    if world.place.has_method(leaf, name) {
        return Ok(None);
    }
    Ok(Some(world.place.field(world.alloc, whole, leaf, name)?))
}

/// The same, of another value.
fn found_in_value<'a, L: Link<'a>, P: Place<'a>>(
    world: &World<'_, L, P>,
    whole: &Whole<'a, P::Work>,
    owner: &Operand<'a>,
    name: &FieldName,
) -> Result<Option<Operand<'a>>, Broken>
    ensures { SaysAs (callee_found owner.now name.now)
        (find_of (L.linked world.now.linked.now) (P.place world.now.place.now)
        owner.now name.now None whole.now) result whole.now }
{
    match finding::find(world.alloc, &whole.state, owner, name)? {
        Found::Value(found) => Ok(Some(found)),
        Found::Method(_) => Ok(None),
    }
}
