//! The built-in functions that every place has, and providers where they are called.
ghost use Rattle.std.specs.Prelude.{◌≡◌, Ok, Err, Some, None, codes, map};
ghost use Rattle.operations.specs.States.{Does};
ghost use Rattle.operations.specs.Arguments.{given};
ghost use Rattle.operations.specs.BuiltIns.{argument, with_argument, len, str, list, fail};
ghost use Rattle.operations.specs.Depsets.{depset, depset_parameters};
ghost use Rattle.operations.specs.Instances.{new_default_info};
ghost use Rattle.operations.specs.Calls.{built_in_call, instance_call};
ghost use Rattle.calls.specs.Answered.{DoesSome};
ghost use Rattle.calls.specs.Parameters.{taken};

use crate::arguments::{Parameter, argument, got};
use crate::binding::check_arguments;
use crate::built_ins::{fail, len, list, str};
use crate::ranges::range;
use making::{construct, default_info};
use operations::{Arguments, State};
use plain::Shared;
use std::alloc::Global;
use values::{Broken, BuiltIn, Provider, Value};

/// The call of a built-in function; None for `provider` and `rule`, which are those of one place.
///
/// # Errors
///
/// `arity` where the arguments don't fit, and then what the function refuses; `NoMemory` where
/// memory was refused.
pub fn call_built_in<'a>(
    alloc: Global,
    state: &mut State<'a>,
    function: BuiltIn,
    arguments: &Arguments<'_, 'a>,
) -> Option<Result<Value, Broken>>
    ensures { DoesSome (built_in_call function (given arguments.now)) state.old result state.new }
{
    match function {
        BuiltIn::Len => Some(call_len(state, arguments)),
        BuiltIn::Str => Some(call_str(alloc, state, arguments)),
        BuiltIn::List => Some(call_list(alloc, state, arguments)),
        BuiltIn::Fail => Some(call_fail(state, arguments)),
        BuiltIn::Range => Some(range(alloc, state, arguments)),
        BuiltIn::Depset => Some(call_depset(alloc, state, arguments)),
        BuiltIn::Provider => None,
        BuiltIn::Rule => None,
    }
}

fn call_len(state: &State, arguments: &Arguments<'_, '_>) -> Result<Value, Broken>
    ensures { Does (with_argument (argument (codes "x") (given arguments.now)) len) state.now result
        state.now }
{
    match argument("x", arguments) {
        Ok(value) => len(state, value),
        Err(kind) => Err(Broken::Kind(kind)),
    }
}

fn call_str(
    alloc: Global,
    state: &mut State,
    arguments: &Arguments<'_, '_>,
) -> Result<Value, Broken>
    ensures { Does (with_argument (argument (codes "x") (given arguments.now)) str) state.old result
        state.new }
{
    match argument("x", arguments) {
        Ok(value) => str(alloc, state, value),
        Err(kind) => Err(Broken::Kind(kind)),
    }
}

fn call_list<'a>(
    alloc: Global,
    state: &mut State<'a>,
    arguments: &Arguments<'_, 'a>,
) -> Result<Value, Broken>
    ensures { Does (with_argument (argument (codes "x") (given arguments.now)) list) state.old
        result state.new }
{
    match argument("x", arguments) {
        Ok(value) => list(alloc, state, value),
        Err(kind) => Err(Broken::Kind(kind)),
    }
}

fn call_fail(state: &State, arguments: &Arguments<'_, '_>) -> Result<Value, Broken>
    ensures { Does (with_argument (argument (codes "text") (given arguments.now)) fail) state.now
        result state.now }
{
    match argument("text", arguments) {
        Ok(value) => fail(state, value),
        Err(kind) => Err(Broken::Kind(kind)),
    }
}

/// `depset(direct = [], order = "default", *, transitive = [])`.
fn call_depset<'a>(
    alloc: Global,
    state: &mut State<'a>,
    arguments: &Arguments<'_, 'a>,
) -> Result<Value, Broken>
    ensures { Does (depset (given arguments.now)) state.old result state.new }
{
    let parameters = depset_parameters();
    if let Err(kind) = check_arguments(&parameters, arguments) {
        return Err(Broken::Kind(kind));
    }
    let direct = got(arguments, 0, "direct");
    let order = got(arguments, 1, "order");
    let transitive = got(arguments, 2, "transitive");
    making::depset(alloc, state, direct, order, transitive)
}

fn depset_parameters() -> [Parameter<'static>; 3]
    ensures { map taken result ≡ depset_parameters }
{
    [
        Parameter::optional("direct"),
        Parameter::optional("order"),
        Parameter::named_only("transitive"),
    ]
}

/// The call of a provider: an instance.
///
/// # Errors
///
/// `arity`; of `DefaultInfo` then `type`, where its `files` are no depset that is empty or of
/// Files, and `large`, where no serial is left for the default. `NoMemory` where memory was
/// refused.
pub fn call_provider<'a>(
    alloc: Global,
    state: &mut State<'a>,
    provider: &Shared<Provider>,
    arguments: &Arguments<'_, 'a>,
) -> Result<Value, Broken>
    ensures { Does (instance_call provider.now (given arguments.now)) state.old result state.new }
{
    match provider.get().id {
        Some(_) => construct(alloc, state, provider, arguments),
        None => call_default_info(alloc, state, provider, arguments),
    }
}

/// `DefaultInfo(*, files = depset())`.
fn call_default_info<'a>(
    alloc: Global,
    state: &mut State<'a>,
    provider: &Shared<Provider>,
    arguments: &Arguments<'_, 'a>,
) -> Result<Value, Broken>
    ensures { Does (new_default_info provider.now (given arguments.now)) state.old result
        state.new }
{
    let parameters = [Parameter::named_only("files")];
    if let Err(kind) = check_arguments(&parameters, arguments) {
        return Err(Broken::Kind(kind));
    }
    default_info(alloc, state, provider, got(arguments, 0, "files"))
}
