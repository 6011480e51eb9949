//! What a module has while its top level runs.
ghost use Rattle.std.specs.Prelude.{Err, Some, None};
ghost use Rattle.operations.specs.Arguments.{given};
ghost use Rattle.ticks.specs.Ticking.{Says};
ghost use Rattle.file_places.specs.ModulePlace.{attribute_call, built_in_call};

use crate::methods::{declared_kind, has_method};
use declaring::{Attributes, new_attribute, new_provider, new_rule};
use field_names::FieldName;
use language::{Place, Whole, Works};
use operands::Operand;
use operations::Arguments;
use std::alloc::Global;
use targets::Declarations;
use values::{AttributeKind, Broken, BuiltIn, Item, Kind, LeafRef, Value};

/// The place of a module, beside those that were evaluated before: calls of `provider`, `rule` and
/// the methods of `attr` declare; calls of rules are `place`.
#[derive(Drop)]
pub struct ModulePlace<'a, A> {
    /// The modules that were evaluated before.
    pub linked: &'a A,
}

impl<'a, A: Attributes> Works for ModulePlace<'a, A> {
    type Work = Declarations;
}

impl<'a, 'p, A: Attributes> Place<'p> for ModulePlace<'a, A> {
    ghost use Rattle.file_places.specs.ModulePlace.{module_place};

    ghost place = { λ p. module_place (A.declared p.linked.now) };

    fn call(
        &self,
        alloc: Global,
        whole: &mut Whole<Declarations>,
        callee: LeafRef<'_>,
        arguments: &Arguments<'_, '_>,
    ) -> Result<Value, Broken> {
        match callee {
            LeafRef::BuiltIn(function) => call(alloc, self.linked, whole, function, arguments),
            LeafRef::Rule(_) => Err(Broken::Kind(Kind::Place)),
            _ => Err(Broken::Kind(Kind::Wrong)),
        }
    }

    fn has_method(&self, owner: LeafRef<'_>, name: &FieldName) -> bool {
        has_method(owner, name)
    }

    fn method(
        &self,
        alloc: Global,
        whole: &mut Whole<Declarations>,
        owner: LeafRef<'_>,
        name: &FieldName,
        arguments: &Arguments<'_, '_>,
    ) -> Result<Value, Broken> {
        match declared_kind(owner, name) {
            Some(kind) => call_attribute(alloc, whole, kind, arguments),
            None => Err(Broken::Kind(Kind::Name)),
        }
    }

    fn field(
        &self,
        _alloc: Global,
        _whole: &Whole<Declarations>,
        _owner: LeafRef<'_>,
        _name: &FieldName,
    ) -> Result<Operand<'p>, Broken> {
        Err(Broken::Kind(Kind::Name))
    }

    fn item(
        &self,
        _alloc: Global,
        _whole: &Whole<Declarations>,
        _target: usize,
        _provider: Item<'_>,
    ) -> Result<Operand<'p>, Broken> {
        Err(Broken::Kind(Kind::Wrong))
    }

    fn offers(
        &self,
        _whole: &Whole<Declarations>,
        _target: usize,
        _provider: Item<'_>,
    ) -> Result<bool, Broken> {
        Err(Broken::Kind(Kind::Wrong))
    }
}

/// A call of `provider` or of `rule`.
fn call<A: Attributes>(
    alloc: Global,
    linked: &A,
    whole: &mut Whole<Declarations>,
    function: BuiltIn,
    arguments: &Arguments<'_, '_>,
) -> Result<Value, Broken>
    ensures { Says (built_in_call (A.declared linked.now) function (given arguments.now) whole.old)
        result whole.new }
{
    match function {
        BuiltIn::Provider => new_provider(alloc, &whole.state, &mut whole.work, arguments),
        BuiltIn::Rule => new_rule(alloc, linked, &whole.state, &mut whole.work, arguments),
        _ => Err(Broken::Kind(Kind::Wrong)),
    }
}

/// A call of a method of `attr`.
fn call_attribute(
    alloc: Global,
    whole: &mut Whole<Declarations>,
    kind: AttributeKind,
    arguments: &Arguments<'_, '_>,
) -> Result<Value, Broken>
    ensures { Says (attribute_call (Some kind) (given arguments.now) whole.old) result whole.new }
{
    new_attribute(alloc, &whole.state, &mut whole.work, kind, arguments)
}
