//! Names of the top level, and functions.
ghost use Rattle.std.specs.Prelude.{◌≡◌, Ok, Some, None, option_copied};
ghost use Rattle.std.specs.Prelude.{option_map, slice_get};
ghost use Rattle.operands.specs.Lying.{stored_value};
ghost use Rattle.operations.specs.States.{Does};
ghost use Rattle.operations.specs.Names.{name_value, set_global, set_loaded, define, in_slot};

use operands::{Bindings, Operand, Stored};
use operations::State;
use plain::{Shared, Text};
use std::alloc::Global;
use values::{Broken, FunctionRef, Items, Leaf, MadeId, Value};

/// The value of a name of the top level, once it is bound, where it is stored. One that a load
/// binds is lent.
pub fn name_value<'a, 'b>(state: &'b State<'a>, number: usize) -> Option<Stored<'a, 'b>>
    ensures { option_map stored_value result ≡ name_value state.now number }
{
    match slot(state.globals.as_slice(), number) {
        Some(value) => Some(Stored::Kept(value)),
        None => loaded_value(&state.loaded, number),
    }
}

/// What stands in a slot, once it is set.
fn slot<'b, 'a>(slots: &'b [Option<Operand<'a>>], number: usize) -> Option<&'b Operand<'a>>
    ensures { option_copied result ≡ in_slot (slice_get slots.now number) }
{
    match slots.get(number) {
        Some(Some(value)) => Some(value),
        _ => None,
    }
}

/// What a name that a load binds holds, once it is bound.
fn loaded_value<'a, 'b>(loaded: &'b Bindings<'a>, number: usize) -> Option<Stored<'a, 'b>>
    ensures { option_map stored_value result ≡ in_slot (slice_get loaded.now number) }
{
    match loaded.get(number) {
        Some(Some(value)) => Some(Stored::Kept(value)),
        _ => None,
    }
}

/// A global of the file that is evaluated gets its value.
pub fn set_global<'a>(state: &mut State<'a>, file: u32, number: usize, value: Operand<'a>)
    ensures { state.new ≡ set_global file number value.entry state.old }
{
    if file == state.file && number < state.globals.as_slice().len() {
        state.globals.set(number, Some(value));
    }
}

/// A name that one of its loads binds gets its value.
pub fn set_loaded<'a>(state: &mut State<'a>, file: u32, number: usize, value: Operand<'a>)
    ensures { state.new ≡ set_loaded file number value.entry state.old }
{
    if file == state.file && number < state.loaded.len() {
        state.loaded.set(number, Some(value));
    }
}

/// The function that a `def` makes keeps its defaults, which were evaluated once.
///
/// # Errors
///
/// `NoMemory` where memory was refused; nothing is made then.
pub fn define<'a>(
    alloc: Global,
    state: &mut State<'a>,
    id: MadeId,
    name: &Text,
    defaults: Items<'a>,
) -> Result<Value, Broken>
    ensures { Does (define id name.now defaults.entry) state.old result state.new }
{
    let function = FunctionRef {
        id,
        path: state.owner.share()?,
        name: name.share()?,
    };
    let function = Shared::new(alloc, function)?;
    let number = id.number as usize;
    if number < state.defaults.len() {
        state.defaults.set(number, defaults);
    }
    Ok(Value::Leaf(Leaf::Function(function)))
}
