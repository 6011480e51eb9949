//! The call of `provider`.
ghost use Rattle.std.specs.Prelude.{◌≡◌, true, Ok, Err, Some, IfOk, map};
ghost use Rattle.std.specs.Prelude.{option_copied};
ghost use Rattle.values.specs.Shape.{shape};
ghost use Rattle.ticks.specs.Ticking.{Changes};
ghost use Rattle.operations.specs.Arguments.{given};
ghost use Rattle.calls.specs.Parameters.{taken};
ghost use Rattle.declaring.specs.NewNames.{may_be_doc};
ghost use Rattle.declaring.specs.ProviderCalls.{provider_parameters, provider_declared};
ghost use Rattle.declaring.specs.ProviderCalls.{provider_with};
ghost use Rattle.declaring.specs.ProviderCalls.{new_provider, fields_in};
ghost use Rattle.declaring.specs.Steps.{provider_numbered};

use crate::fields::fields_in;
use crate::names::may_be_doc;
use calls::{Parameter, check_arguments, got};
use first_places::PlacedNames;
use operands::Operand;
use operations::{Arguments, State};
use plain::Shared;
use std::alloc::{AllocError, Global};
use targets::Declarations;
use values::{
    Broken, ExportName, Exported, Kind, Leaf, MadeId, Names, Provider, ProviderRef, Value,
};

/// A call of `provider`, which makes a provider with these fields.
///
/// # Errors
///
/// `arity`, and then `type`; `NoMemory` where memory was refused, or the module has no number left.
/// After an error the module has declared what it had.
pub fn new_provider(
    alloc: Global,
    state: &State,
    declared: &mut Declarations,
    arguments: &Arguments<'_, '_>,
) -> Result<Value, Broken>
    ensures { Changes (new_provider (given arguments.now) state.now declared.old) result
        declared.old declared.new }
{
    let parameters = provider_parameters();
    if let Err(kind) = check_arguments(&parameters, arguments) {
        return Err(Broken::Kind(kind));
    }
    let doc = got(arguments, 0, "doc");
    match got(arguments, 1, "fields") {
        Some(fields) => provider_with(alloc, state, declared, doc, fields),
        None => Err(Broken::Kind(Kind::Arity)),
    }
}

/// `provider(doc = "", *, fields)`.
fn provider_parameters() -> [Parameter<'static>; 2]
    ensures { map taken result ≡ provider_parameters }
{
    [
        Parameter::optional("doc"),
        Parameter::wanted_by_name("fields"),
    ]
}

/// A provider out of what its call was given, or `type`.
fn provider_with(
    alloc: Global,
    state: &State,
    declared: &mut Declarations,
    doc: Option<&Operand<'_>>,
    fields: &Operand<'_>,
) -> Result<Value, Broken>
    ensures { Changes (provider_declared state.now declared.old
        (may_be_doc state.now.heap (option_copied doc.entry))
        (fields_in state.now.heap (shape state.now.heap fields.now))) result
        declared.old declared.new }
{
    if !may_be_doc(&state.heap, doc) {
        return Err(Broken::Kind(Kind::Wrong));
    }
    match fields_in(alloc, &state.heap, &state.heap.see_item(fields.item()))? {
        Some(fields) => declare_provider(alloc, state, declared, fields),
        None => Err(Broken::Kind(Kind::Wrong)),
    }
}

/// A provider more. No module makes more than a number can say.
fn declare_provider(
    alloc: Global,
    state: &State,
    declared: &mut Declarations,
    fields: Names,
) -> Result<Value, Broken>
    ensures { Changes (provider_declared state.now declared.old true (Some fields)) result
        declared.old declared.new }
{
    let number = declared.providers;
    if number == u32::MAX {
        return Err(Broken::NoMemory);
    }
    let fields = fields.placed(alloc)?;
    let provider = provider_of(state, number, fields)?;
    let provider = Shared::new(alloc, provider)?;
    declared.providers = number + 1;
    Ok(Value::Leaf(Leaf::Provider(provider)))
}

/// The provider of this number. Until the end of its module it is called by it.
fn provider_of(state: &State, number: u32, fields: PlacedNames) -> Result<Provider, AllocError>
    ensures { IfOk result (λ p. p ≡ provider_numbered state.now number fields) }
{
    let path = state.owner.share()?;
    let module = state.file;
    let name = ExportName::Making(number as u64);
    Ok(Provider {
        id: Some(MadeId { module, number }),
        name: ProviderRef::Exported(Exported { path, name }),
        fields,
    })
}
