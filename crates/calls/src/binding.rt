//! Whether arguments fit parameters.
ghost use Rattle.std.specs.Prelude.{◌≡◌, Ok, Err, MatchResult, map, slice_get};
ghost use Rattle.std.specs.List.{list_any};
ghost use Rattle.std.specs.Str.{bytes_eq};
ghost use Rattle.operations.specs.Arguments.{given, bound, all_known, given_for};
ghost use Rattle.calls.specs.Parameters.{taken, got_from, may_get, may_get_all};

use crate::arguments::Parameter;
use making::given_for;
use operations::Arguments;
use plain::Text;
use values::Kind;

/// Whether the arguments fit the parameters, or `arity`: then `got` gives what each gets.
///
/// # Errors
///
/// `arity` where a name is none of a parameter, where there are too many positions, where a
/// parameter gets two arguments or a position that it doesn't take, and where one is missing that
/// may not be.
pub fn check_arguments(
    parameters: &[Parameter<'_>],
    arguments: &Arguments<'_, '_>,
) -> Result<(), Kind>
    ensures { MatchResult result
        (λ _. bound (map taken parameters.now) (given arguments.now)
        ≡ Ok (got_from 0 (map taken parameters.now) (given arguments.now)))
        (λ k. bound (map taken parameters.now) (given arguments.now) ≡ Err k) }
{
    if !are_known(parameters, arguments.names) {
        return Err(Kind::Arity);
    }
    if arguments.items.len() > parameters.len() {
        return Err(Kind::Arity);
    }
    if !may_get_all(parameters, arguments) {
        return Err(Kind::Arity);
    }
    Ok(())
}

/// Whether each name is that of a parameter.
fn are_known(parameters: &[Parameter<'_>], names: &[Text]) -> bool
    ensures { result ≡ all_known (map taken parameters.now) names.now }
{
    names.iter().all(|name| is_known(parameters, name))
}

/// Whether a name is that of a parameter.
fn is_known(parameters: &[Parameter<'_>], name: &Text) -> bool
    ensures { result ≡ list_any (λ p. bytes_eq name.now p.name) (map taken parameters.now) }
{
    for parameter in parameters {
        if name.as_str() == parameter.name {
            return true;
        }
    }
    false
}

/// Whether each parameter may get what stands at its place and what was given under its name.
fn may_get_all(parameters: &[Parameter<'_>], arguments: &Arguments<'_, '_>) -> bool
    ensures { result ≡ may_get_all 0 (map taken parameters.now) (given arguments.now) }
{
    for (place, parameter) in parameters.iter().enumerate() {
        if !may_get(parameter, arguments, place) {
            return false;
        }
    }
    true
}

/// Whether a parameter may get what stands at its place and what was given under its name.
fn may_get(parameter: &Parameter<'_>, arguments: &Arguments<'_, '_>, place: usize) -> bool
    ensures { result ≡ may_get (taken parameter.now) (slice_get arguments.now.items.now place)
        (given_for parameter.now.name.now arguments.now.names.now arguments.now.values.now) }
{
    let named = given_for(parameter.name, arguments.names, arguments.values);
    match (arguments.items.get(place), named) {
        (Some(_), Some(_)) => false,
        (Some(_), None) => !parameter.by_name,
        (None, Some(_)) => true,
        (None, None) => parameter.may_miss,
    }
}
