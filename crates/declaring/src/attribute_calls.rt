//! The calls of `attr.string` and its kin.
ghost use Rattle.std.specs.Prelude.{◌≡◌, Ok, Err, Some, MatchResult, IfOk, option_copied};
ghost use Rattle.std.specs.Prelude.{map};
ghost use Rattle.ticks.specs.Ticking.{Changes};
ghost use Rattle.operations.specs.Arguments.{given, bound};
ghost use Rattle.calls.specs.Parameters.{taken, got_from};
ghost use Rattle.declaring.specs.AttributeCalls.{attribute_parameters, named, attribute_in};
ghost use Rattle.declaring.specs.AttributeCalls.{attribute_value};
ghost use Rattle.declaring.specs.AttributeCalls.{attribute_declared, new_attribute};

use crate::defaults::default_in;
use crate::names::may_be_doc;
use crate::restrictions::{allow_files_in, mandatory_in, providers_in, values_in};
use calls::{Parameter, check_arguments};
use heap::Heap;
use making::given_for;
use operands::Operand;
use operations::{Arguments, State};
use plain::Shared;
use std::alloc::{AllocError, Global};
use targets::{Attribute, Choices, Declarations};
use values::{AttributeKind, AttributeRef, Broken, Kind, Leaf, Value};

/// A call of the method of `attr` that declares attributes of a kind.
///
/// # Errors
///
/// `arity`, and then `type`; `NoMemory` where memory was refused. After an error the module has
/// declared what it had.
pub fn new_attribute(
    alloc: Global,
    state: &State,
    declared: &mut Declarations,
    kind: AttributeKind,
    arguments: &Arguments<'_, '_>,
) -> Result<Value, Broken>
    ensures { Changes (new_attribute kind (given arguments.now) state.now declared.old) result
        declared.old declared.new }
{
    if let Err(refused) = check_attribute(kind, arguments) {
        return Err(Broken::Kind(refused));
    }
    match attribute_in(alloc, &state.heap, kind, arguments)? {
        Some(attribute) => declare_attribute(alloc, state, declared, attribute),
        None => Err(Broken::Kind(Kind::Wrong)),
    }
}

/// Whether the arguments fit the parameters of a kind, or `arity`.
fn check_attribute(kind: AttributeKind, arguments: &Arguments<'_, '_>) -> Result<(), Kind>
    ensures { MatchResult result
        (λ _. bound (attribute_parameters kind) (given arguments.now)
        ≡ Ok (got_from 0 (attribute_parameters kind) (given arguments.now)))
        (λ k. bound (attribute_parameters kind) (given arguments.now) ≡ Err k) }
{
    match kind {
        AttributeKind::String => check_arguments(&with_values(), arguments),
        AttributeKind::Int => check_arguments(&with_values(), arguments),
        AttributeKind::Bool => check_arguments(&alone(), arguments),
        AttributeKind::StringList => check_arguments(&alone(), arguments),
        AttributeKind::StringDict => check_arguments(&alone(), arguments),
        AttributeKind::Label => check_arguments(&with_files(), arguments),
        AttributeKind::LabelList => check_arguments(&with_files(), arguments),
    }
}

/// The parameters of all kinds.
fn alone() -> [Parameter<'static>; 3]
    ensures { map taken result ≡ attribute_parameters AttributeKind.Bool }
{
    [
        Parameter::named_only("default"),
        Parameter::named_only("mandatory"),
        Parameter::named_only("doc"),
    ]
}

/// Those of strings and numbers, which may be restricted.
fn with_values() -> [Parameter<'static>; 4]
    ensures { map taken result ≡ attribute_parameters AttributeKind.String }
{
    [
        Parameter::named_only("default"),
        Parameter::named_only("mandatory"),
        Parameter::named_only("doc"),
        Parameter::named_only("values"),
    ]
}

/// Those of labels, which may be asked for providers and kinds of files.
fn with_files() -> [Parameter<'static>; 5]
    ensures { map taken result ≡ attribute_parameters AttributeKind.Label }
{
    [
        Parameter::named_only("default"),
        Parameter::named_only("mandatory"),
        Parameter::named_only("doc"),
        Parameter::named_only("providers"),
        Parameter::named_only("allow_files"),
    ]
}

/// What was given under a name.
fn named<'a, 'v>(arguments: &Arguments<'a, 'v>, name: &str) -> Option<&'a Operand<'v>>
    ensures { option_copied result ≡ named (given arguments.now) name.now }
{
    given_for(name, arguments.names, arguments.values)
}

/// What a call whose arguments fit declares; None where something is of another type.
fn attribute_in(
    alloc: Global,
    heap: &Heap,
    kind: AttributeKind,
    arguments: &Arguments<'_, '_>,
) -> Result<Option<Attribute>, AllocError>
    ensures { IfOk result (λ o. o ≡ attribute_in heap.now kind (given arguments.now)) }
{
    if !may_be_doc(heap, named(arguments, "doc")) {
        return Ok(None);
    }
    let Some(default) = default_in(alloc, heap, kind, named(arguments, "default"))? else {
        return Ok(None);
    };
    let Some(mandatory) = mandatory_in(heap, named(arguments, "mandatory")) else {
        return Ok(None);
    };
    let Some(values) = values_in(alloc, heap, kind, named(arguments, "values"))? else {
        return Ok(None);
    };
    let Some(providers) = providers_in(alloc, heap, named(arguments, "providers"))? else {
        return Ok(None);
    };
    let Some(allow_files) = allow_files_in(alloc, heap, named(arguments, "allow_files"))? else {
        return Ok(None);
    };
    Ok(Some(Attribute {
        kind,
        default,
        mandatory,
        values: Choices::of(alloc, values)?,
        providers,
        allow_files,
    }))
}

/// Puts a declaration last: the value that names it.
fn declare_attribute(
    alloc: Global,
    state: &State,
    declared: &mut Declarations,
    attribute: Attribute,
) -> Result<Value, Broken>
    ensures { Changes (attribute_declared state.now declared.old (Some attribute)) result
        declared.old declared.new }
{
    let value = attribute_value(alloc, state, attribute.kind, declared.attributes.len())?;
    let attribute = Shared::new(alloc, attribute)?;
    declared.attributes.push(attribute)?;
    Ok(value)
}

/// The value that names a declaration of the module that is evaluated.
fn attribute_value(
    alloc: Global,
    state: &State,
    kind: AttributeKind,
    number: usize,
) -> Result<Value, AllocError>
    ensures { IfOk result (λ v. v ≡ attribute_value state.now kind number) }
{
    let path = state.owner.share()?;
    let number = number as u64;
    let attribute = Shared::new(alloc, AttributeRef { kind, path, number })?;
    Ok(Value::Leaf(Leaf::Attribute(attribute)))
}
