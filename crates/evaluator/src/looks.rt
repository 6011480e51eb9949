//! Fields and items.
ghost use Rattle.std.specs.Prelude.{Some, None};
ghost use Rattle.values.specs.Seeing.{item_value};
ghost use Rattle.language.specs.Language.{of_place, target_of, field_of, item_of};
ghost use Rattle.ticks.specs.Ticking.{Says};

use crate::world::World;
use field_names::FieldName;
use language::{Link, Place, Whole};
use language_calls::{of_place, target_of};
use operands::Operand;
use values::{Broken, Item};

/// `value.name`: of a target or an object its place's.
pub(crate) fn field<'a, L: Link<'a>, P: Place<'a>>(
    world: &World<'_, L, P>,
    whole: &Whole<'a, P::Work>,
    value: &Operand<'a>,
    name: &FieldName,
) -> Result<Operand<'a>, Broken>
    ensures { Says (field_of (L.linked world.now.linked.now) (P.place world.now.place.now)
        value.now name.now (of_place value.now) whole.now) result whole.now }
{
    match of_place(value.item()) {
        Some(leaf) => world.place.field(world.alloc, whole, leaf, name),
        None => finding::field(world.alloc, &whole.state, value, name),
    }
}

/// `base[index]`: of a target its place's.
pub(crate) fn item<'a, L: Link<'a>, P: Place<'a>>(
    world: &World<'_, L, P>,
    whole: &Whole<'a, P::Work>,
    base: &Operand<'a>,
    index: Item<'_>,
) -> Result<Operand<'a>, Broken>
    ensures { Says (item_of (L.linked world.now.linked.now) (P.place world.now.place.now)
        base.now (item_value index.entry) (target_of base.now) whole.now) result whole.now }
{
    match target_of(base.item()) {
        Some(target) => world.place.item(world.alloc, whole, target, index),
        None => state::item(world.alloc, &whole.state, base, index),
    }
}
