//! What is called where a name of a value is called.
ghost use Rattle.std.specs.Prelude.{◌≡◌, Ok, Err, Some, None, MatchResult};
ghost use Rattle.ticks.specs.Ticking.{FaultOr};
ghost use Rattle.operations.specs.Fields.{find};
ghost use Rattle.finding.specs.Founds.{finding};

use crate::fields::field_of;
use crate::methods::method_named;
use field_names::FieldName;
use operands::Operand;
use operations::{Method, State};
use std::alloc::Global;
use values::{Broken, Kind};

/// What `value.name` is where it is called: the value of a field, or a method.
#[derive(Drop)]
pub enum Found<'a> {
    /// The value of a field.
    Value(Operand<'a>),
    /// A method of the value.
    Method(Method),
}

/// What is called by `value.name(..)`: it is found before the arguments are evaluated.
///
/// # Errors
///
/// `name`, where there is neither a field nor a method of this name; `NoMemory` where memory was
/// refused.
pub fn find<'a>(
    alloc: Global,
    state: &State<'a>,
    value: &Operand<'a>,
    name: &FieldName,
) -> Result<Found<'a>, Broken>
    ensures { MatchResult result (λ f. find value.now name.now state.now
        ≡ Ok (finding f, state.now)) (λ e. FaultOr (find value.now name.now state.now) e) }
{
    match field_of(alloc, state, value, name)? {
        Some(value) => Ok(Found::Value(value)),
        None => match method_named(&state.heap.see_item(value.item()), name) {
            Some(method) => Ok(Found::Method(method)),
            None => Err(Broken::Kind(Kind::Name)),
        },
    }
}
