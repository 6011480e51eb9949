//! What parameters get of arguments.
ghost use Rattle.std.specs.Prelude.{◌≡◌, ◌∷◌, [], Ok, Err, Some, None, MatchResult, MatchOption};
ghost use Rattle.std.specs.Prelude.{option_copied};
ghost use Rattle.operations.specs.Arguments.{given, wanted, wanted_by_name, optional, named_only};
ghost use Rattle.operations.specs.Arguments.{all_known, given_for, positions};
ghost use Rattle.operations.specs.BuiltIns.{argument};
ghost use Rattle.calls.specs.Parameters.{taken, got_at, IsNotOne};

use making::given_for;
use operands::Operand;
use operations::Arguments;
use plain::Text;
use values::Kind;

/// A parameter: whether it is given by name alone, and whether it may be missing.
#[derive(Clone, Copy)]
pub struct Parameter<'a> {
    /// Its name.
    pub name: &'a str,
    /// Whether it is given by name alone: then no position is left for it.
    pub by_name: bool,
    /// Whether it may be missing.
    pub may_miss: bool,
}

impl<'a> Parameter<'a> {
    /// One that has to be given.
    pub fn wanted(name: &'a str) -> Parameter<'a>
        ensures { taken result ≡ wanted name.now }
    {
        Parameter {
            name,
            by_name: false,
            may_miss: false,
        }
    }

    /// One that has to be given, by name alone.
    pub fn wanted_by_name(name: &'a str) -> Parameter<'a>
        ensures { taken result ≡ wanted_by_name name.now }
    {
        Parameter {
            name,
            by_name: true,
            may_miss: false,
        }
    }

    /// One that may be missing.
    pub fn optional(name: &'a str) -> Parameter<'a>
        ensures { taken result ≡ optional name.now }
    {
        Parameter {
            name,
            by_name: false,
            may_miss: true,
        }
    }

    /// One that is given by name alone, if at all.
    pub fn named_only(name: &'a str) -> Parameter<'a>
        ensures { taken result ≡ named_only name.now }
    {
        Parameter {
            name,
            by_name: true,
            may_miss: true,
        }
    }
}

/// What the one parameter of a call gets, by position or by name, or `arity`.
///
/// # Errors
///
/// `arity` where there is no argument or more than one position, where it is given both by position
/// and by name, and where a name is another.
pub fn argument<'a, 'v>(name: &str, arguments: &Arguments<'a, 'v>) -> Result<&'a Operand<'v>, Kind>
    ensures { MatchResult result (λ v. argument name.now (given arguments.now) ≡ Ok v.now)
        (λ k. argument name.now (given arguments.now) ≡ Err k) }
{
    if !are_all(name, arguments.names) {
        return Err(Kind::Arity);
    }
    let named = given_for(name, arguments.names, arguments.values);
    match arguments.items {
        [] => match named {
            Some(value) => Ok(value),
            None => Err(Kind::Arity),
        },
        [value] => match named {
            Some(_) => Err(Kind::Arity),
            None => Ok(value),
        },
        [_, _, ..] => Err(Kind::Arity),
    }
}

/// Whether each name is this one.
fn are_all(name: &str, names: &[Text]) -> bool
    ensures { result ≡ all_known (wanted name.now ∷ []) names.now }
{
    names.iter().all(|other| other.as_str() == name)
}

/// What the parameter of this name, at this place, gets of arguments that fit: what stands at its
/// place, or else what was given under its name.
pub fn got<'a, 'v>(
    arguments: &Arguments<'a, 'v>,
    place: usize,
    name: &str,
) -> Option<&'a Operand<'v>>
    ensures { option_copied result ≡ got_at place name.now (given arguments.now) }
{
    match arguments.items.get(place) {
        Some(value) => Some(value),
        None => given_for(name, arguments.names, arguments.values),
    }
}

/// The positions of a call that takes nothing else: any name is `arity`.
///
/// # Errors
///
/// `arity` where an argument is given by name.
pub fn positions<'a, 'v>(arguments: &Arguments<'a, 'v>) -> Result<&'a [Operand<'v>], Kind>
    ensures { MatchResult result (λ vs. positions (given arguments.now) ≡ Ok vs.now)
        (λ k. positions (given arguments.now) ≡ Err k) }
{
    if !arguments.names.is_empty() {
        return Err(Kind::Arity);
    }
    Ok(arguments.items)
}

/// The one value, if there is exactly one.
pub fn only<'a, 'v>(values: &'a [Operand<'v>]) -> Option<&'a Operand<'v>>
    ensures { MatchOption result (IsNotOne values.now) (λ v. values.now ≡ v.now ∷ []) }
{
    match values {
        [] => None,
        [value] => Some(value),
        [_, _, ..] => None,
    }
}
