//! What a `BUILD` file has while it runs.
ghost use Rattle.std.specs.Prelude.{◌≡◌, Ok, Err, Some, None, Option, option_copied};
ghost use Rattle.leaves.specs.declared.leaf.MadeId.{MadeId as Id};
ghost use Rattle.operations.specs.Arguments.{Given, given};
ghost use Rattle.language.specs.declared.whole.Whole.{Whole as Held};
ghost use Rattle.targets.specs.declared.attributes.Rule.{Rule as Made};
ghost use Rattle.ticks.specs.Ticking.{Says};
ghost use Rattle.rule_calls.specs.Packages.{Declared};
ghost use Rattle.file_places.specs.BuildPlace.{refused_call, rule_called};

use crate::methods::{declared_kind, has_method};
use field_names::FieldName;
use language::{Place, Whole, Works};
use operands::Operand;
use operations::Arguments;
use plain::Shared;
use rule_calls::{PackageTargets, call_rule};
use std::alloc::Global;
use targets::Rule;
use values::{Broken, BuiltIn, Item, Kind, Leaf, LeafRef, MadeId, Value};

/// The rules of the modules that are linked.
pub trait Rules {
    ghost rules: { Self → Id → Option Made };

    /// The rule of these numbers.
    fn rule(&self, id: MadeId) -> Option<&Shared<Rule>>
        ensures { option_copied result ≡ rules self.now id };
}

/// The place of a `BUILD` file, beside the modules whose rules it calls: calls of rules declare
/// targets of its package; calls of `provider`, `rule` and the methods of `attr` are `place`.
#[derive(Drop)]
pub struct BuildPlace<'a, R> {
    /// The modules whose rules it calls.
    pub linked: &'a R,
}

impl<'a, R: Rules> Works for BuildPlace<'a, R> {
    type Work = PackageTargets;
}

impl<'a, 'p, R: Rules> Place<'p> for BuildPlace<'a, R> {
    ghost use Rattle.file_places.specs.BuildPlace.{build_place};

    ghost place = { λ p. build_place (R.rules p.linked.now) };

    fn call(
        &self,
        alloc: Global,
        whole: &mut Whole<PackageTargets>,
        callee: LeafRef<'_>,
        arguments: &Arguments<'_, '_>,
    ) -> Result<Value, Broken> {
        match callee {
            LeafRef::BuiltIn(function) => refuse_call(function),
            LeafRef::Rule(rule) => call(alloc, self.linked, whole, rule.get().id, arguments),
            _ => Err(Broken::Kind(Kind::Wrong)),
        }
    }

    fn has_method(&self, owner: LeafRef<'_>, name: &FieldName) -> bool {
        has_method(owner, name)
    }

    fn method(
        &self,
        _alloc: Global,
        _whole: &mut Whole<PackageTargets>,
        owner: LeafRef<'_>,
        name: &FieldName,
        _arguments: &Arguments<'_, '_>,
    ) -> Result<Value, Broken> {
        match declared_kind(owner, name) {
            Some(_) => Err(Broken::Kind(Kind::Place)),
            None => Err(Broken::Kind(Kind::Name)),
        }
    }

    fn field(
        &self,
        _alloc: Global,
        _whole: &Whole<PackageTargets>,
        _owner: LeafRef<'_>,
        _name: &FieldName,
    ) -> Result<Operand<'p>, Broken> {
        Err(Broken::Kind(Kind::Name))
    }

    fn item(
        &self,
        _alloc: Global,
        _whole: &Whole<PackageTargets>,
        _target: usize,
        _provider: Item<'_>,
    ) -> Result<Operand<'p>, Broken> {
        Err(Broken::Kind(Kind::Wrong))
    }

    fn offers(
        &self,
        _whole: &Whole<PackageTargets>,
        _target: usize,
        _provider: Item<'_>,
    ) -> Result<bool, Broken> {
        Err(Broken::Kind(Kind::Wrong))
    }
}

/// A call of a built-in function: `provider` and `rule` are a module's.
fn refuse_call(function: BuiltIn) -> Result<Value, Broken>
    ensures { (g : Given) (w : Held Declared) → Says (refused_call function g w) result w }
{
    match function {
        BuiltIn::Provider | BuiltIn::Rule => Err(Broken::Kind(Kind::Place)),
        _ => Err(Broken::Kind(Kind::Wrong)),
    }
}

/// A call of the rule of these numbers.
fn call<R: Rules>(
    alloc: Global,
    linked: &R,
    whole: &mut Whole<PackageTargets>,
    id: MadeId,
    arguments: &Arguments<'_, '_>,
) -> Result<Value, Broken>
    ensures { Says (rule_called (R.rules linked.now id) (given arguments.now) whole.old) result
        whole.new }
{
    match linked.rule(id) {
        Some(rule) => declare(alloc, whole, rule, arguments),
        None => Err(Broken::Kind(Kind::Wrong)),
    }
}

/// A call of a rule, which gives None.
fn declare(
    alloc: Global,
    whole: &mut Whole<PackageTargets>,
    rule: &Shared<Rule>,
    arguments: &Arguments<'_, '_>,
) -> Result<Value, Broken>
    ensures { Says (rule_called (Some rule.now) (given arguments.now) whole.old) result whole.new }
{
    call_rule(alloc, &mut whole.state, &mut whole.work, rule, arguments)?;
    Ok(Value::Leaf(Leaf::None))
}
