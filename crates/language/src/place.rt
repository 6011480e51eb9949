//! What only one place has.
ghost use Rattle.leaves.specs.Lent.{leaf_at};
ghost use Rattle.std.specs.Prelude.{◌≡◌};
ghost use Rattle.values.specs.Seeing.{item_value};
ghost use Rattle.operations.specs.Arguments.{given};
ghost use Rattle.language.specs.Place.{Place as Having};
ghost use Rattle.operations.specs.States.{Gives};
ghost use Rattle.ticks.specs.Ticking.{Says};

use crate::Whole;
use field_names::FieldName;
use operands::Operand;
use operations::Arguments;
use std::alloc::Global;
use values::{Broken, Item, LeafRef, Value};

/// What has work of its own.
pub trait Works {
    /// What its calls change beside the state of the evaluation.
    type Work;
}

/// A module, a `BUILD` file or an implementation: its calls, and what its targets and objects show.
/// What lies in what lives longer than the evaluation is lent.
///
/// Each method gives what the place gives, with the state after it, or the fault that it has. Where
/// memory was refused nothing is said.
pub trait Place<'a>: Works {
    ghost place: { Self → Having Self.Work };

    /// A call of `provider` or `rule`, or of a rule.
    fn call(
        &self,
        alloc: Global,
        whole: &mut Whole<Self::Work>,
        callee: LeafRef<'_>,
        arguments: &Arguments<'_, '_>,
    ) -> Result<Value, Broken>
        ensures { Says ((place self.now).call (leaf_at callee.entry) (given arguments.now)
            whole.old) result whole.new };

    /// Whether a target or an object has a method of this name.
    fn has_method(&self, owner: LeafRef<'_>, name: &FieldName) -> bool
        ensures { result ≡ (place self.now).has_method (leaf_at owner.entry) name.now };

    /// A call of a method of a target or an object.
    fn method(
        &self,
        alloc: Global,
        whole: &mut Whole<Self::Work>,
        owner: LeafRef<'_>,
        name: &FieldName,
        arguments: &Arguments<'_, '_>,
    ) -> Result<Value, Broken>
        ensures { Says ((place self.now).method (leaf_at owner.entry) name.now
            (given arguments.now) whole.old) result whole.new };

    /// A field of a target or an object.
    fn field(
        &self,
        alloc: Global,
        whole: &Whole<Self::Work>,
        owner: LeafRef<'_>,
        name: &FieldName,
    ) -> Result<Operand<'a>, Broken>
        ensures { Gives ((place self.now).field (leaf_at owner.entry) name.now whole.now) result };

    /// `t[P]` of the target at a place among the dependencies.
    fn item(
        &self,
        alloc: Global,
        whole: &Whole<Self::Work>,
        target: usize,
        provider: Item<'_>,
    ) -> Result<Operand<'a>, Broken>
        ensures { Gives
            ((place self.now).item target (item_value provider.entry) whole.now) result };

    /// `P in t` of the target at a place among the dependencies.
    fn offers(
        &self,
        whole: &Whole<Self::Work>,
        target: usize,
        provider: Item<'_>,
    ) -> Result<bool, Broken>
        ensures { Gives
            ((place self.now).offers target (item_value provider.entry) whole.now) result };
}
