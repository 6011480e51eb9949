//! The call of `rule`.
ghost use Rattle.std.specs.Prelude.{◌≡◌, Ok, Err, IfOk, map, option_copied};
ghost use Rattle.values.specs.Seeing.{seen};
ghost use Rattle.values.specs.Shape.{shape};
ghost use Rattle.ticks.specs.Ticking.{Changes};
ghost use Rattle.operations.specs.Arguments.{given};
ghost use Rattle.calls.specs.Parameters.{taken};
ghost use Rattle.declaring.specs.NewNames.{may_be_doc};
ghost use Rattle.declaring.specs.RuleMaking.{rule_parameters, function_in, attributes_in};
ghost use Rattle.declaring.specs.RuleMaking.{rule_declared, rule_with, new_rule};
ghost use Rattle.declaring.specs.Steps.{rule_named, rule_put};

use crate::attributes_of_rules::attributes_in;
use crate::known::Attributes;
use crate::names::may_be_doc;
use calls::{Parameter, check_arguments, got};
use operands::Operand;
use operations::{Arguments, State};
use plain::Shared;
use std::alloc::{AllocError, Global};
use targets::{Declarations, Rule, RuleAttributes};
use values::{
    Broken, ExportName, Exported, FunctionRef, Kind, Leaf, LeafRef, MadeId, RuleRef, Seen, Value,
};

/// A call of `rule`, which makes a rule of a function and of attributes. Those may be of this
/// module, or of the modules before it, which are linked.
///
/// # Errors
///
/// `arity`, and then `type`; `NoMemory` where memory was refused, or the module has no number left.
/// After an error the module has declared what it had.
pub fn new_rule<A: Attributes>(
    alloc: Global,
    linked: &A,
    state: &State,
    declared: &mut Declarations,
    arguments: &Arguments<'_, '_>,
) -> Result<Value, Broken>
    ensures { Changes (new_rule (A.declared linked.now) state.now declared.old
        (given arguments.now)) result declared.old declared.new }
{
    let parameters = rule_parameters();
    if let Err(kind) = check_arguments(&parameters, arguments) {
        return Err(Broken::Kind(kind));
    }
    let Some(implementation) = got(arguments, 0, "implementation") else {
        return Err(Broken::Kind(Kind::Arity));
    };
    let attrs = got(arguments, 1, "attrs");
    let doc = got(arguments, 2, "doc");
    rule_with(alloc, linked, state, declared, implementation, attrs, doc)
}

/// `rule(implementation, attrs = {}, *, doc = "")`.
fn rule_parameters() -> [Parameter<'static>; 3]
    ensures { map taken result ≡ rule_parameters }
{
    [
        Parameter::wanted("implementation"),
        Parameter::optional("attrs"),
        Parameter::named_only("doc"),
    ]
}

/// A rule out of what its call was given, or `type`.
fn rule_with<A: Attributes>(
    alloc: Global,
    linked: &A,
    state: &State,
    declared: &mut Declarations,
    implementation: &Operand<'_>,
    attrs: Option<&Operand<'_>>,
    doc: Option<&Operand<'_>>,
) -> Result<Value, Broken>
    ensures { Changes (rule_declared (A.declared linked.now) state.now declared.old
        (may_be_doc state.now.heap (option_copied doc.entry))
        (function_in (shape state.now.heap implementation.now))
        (attributes_in (A.declared linked.now) state.now declared.old (option_copied attrs.entry)))
        result declared.old declared.new }
{
    if !may_be_doc(&state.heap, doc) {
        return Err(Broken::Kind(Kind::Wrong));
    }
    let Some(implementation) = function_in(&state.heap.see_item(implementation.item())) else {
        return Err(Broken::Kind(Kind::Wrong));
    };
    let Some(attributes) = attributes_in(alloc, linked, state, declared, attrs)? else {
        return Err(Broken::Kind(Kind::Wrong));
    };
    let rule = Rule {
        implementation: implementation.share()?,
        attributes: RuleAttributes::new(alloc, attributes)?,
    };
    declare_rule(alloc, state, declared, rule)
}

/// The function that a value is, if it was written in Starlark.
fn function_in<'a>(value: &Seen<'a, '_>) -> Option<&'a Shared<FunctionRef>>
    ensures { option_copied result ≡ function_in (seen value.now) }
{
    match value {
        Seen::Leaf(LeafRef::Function(function)) => Some(function),
        _ => None,
    }
}

/// A rule more. No module makes more than a number can say.
fn declare_rule(
    alloc: Global,
    state: &State,
    declared: &mut Declarations,
    rule: Rule,
) -> Result<Value, Broken>
    ensures { Changes (rule_put state.now declared.old rule) result declared.old declared.new }
{
    let number = declared.rules.len();
    if number > u32::MAX as usize {
        return Err(Broken::NoMemory);
    }
    let value = rule_value(alloc, state, number as u32)?;
    let rule = Shared::new(alloc, rule)?;
    declared.rules.push(rule)?;
    Ok(value)
}

/// The value that names the rule of this number. Until the end of its module it is called by it.
fn rule_value(alloc: Global, state: &State, number: u32) -> Result<Value, AllocError>
    ensures { IfOk result (λ v. v ≡ rule_named state.now number) }
{
    let path = state.owner.share()?;
    let module = state.file;
    let name = ExportName::Making(number as u64);
    let rule = RuleRef {
        id: MadeId { module, number },
        name: Exported { path, name },
    };
    Ok(Value::Leaf(Leaf::Rule(Shared::new(alloc, rule)?)))
}
