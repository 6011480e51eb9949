//! What a file writes out and what the machine names, as values: numbers and functions.
ghost use Rattle.std.specs.Prelude.{◌≡◌, pos, Some, None, IfOk, IfSome, option_map};
ghost use Rattle.values.specs.Seeing.{item_value};
ghost use Rattle.operations.specs.Making.{number};
ghost use Rattle.operations.specs.Names.{function_of};
ghost use Rattle.language.specs.Language.{made_id, function_id};
ghost use Rattle.frames.specs.Answers.{id_seen};

use frames::FunctionId;
use language_calls::leaf_of;
use std::alloc::AllocError;
use values::{Item, Key, LeafRef, MadeId, Value};

/// A number that a file writes out. One from 2^63 on, which no text that is read has, is answered
/// as want of memory.
pub(crate) fn number_value(written: u64) -> Result<Value, AllocError>
    ensures { IfOk result (λ v. v ≡ number (pos written)) }
{
    match i64::try_from(written) {
        Ok(number) => Ok(Value::Key(Key::Number(number))),
        Err(_) => Err(AllocError),
    }
}

/// The numbers of a function, as a value keeps them; None where they are too large for one, which
/// no function's are.
pub(crate) fn made_id(function: FunctionId) -> Option<MadeId>
    ensures { IfSome result (λ id. id ≡ made_id (id_seen function)) }
{
    let module = u32::try_from(function.file).ok()?;
    let number = u32::try_from(function.number).ok()?;
    Some(MadeId { module, number })
}

/// The numbers of a function that a value keeps.
pub fn function_id(id: MadeId) -> FunctionId
    ensures { id_seen result ≡ function_id id }
{
    FunctionId {
        file: id.module as usize,
        number: id.number as usize,
    }
}

/// Which function written in Starlark a value is, if it is one.
pub(crate) fn function_of(value: Item<'_>) -> Option<FunctionId>
    ensures { option_map id_seen result
        ≡ option_map function_id (function_of (item_value value.entry)) }
{
    match leaf_of(value) {
        Some(LeafRef::Function(function)) => Some(function_id(function.get().id)),
        _ => None,
    }
}
