//! Names of top levels, what loads ask for, and what a `def` makes.
ghost use Rattle.std.specs.Prelude.{◌≡◌, Ok, Err, Some, None, IfOk, option_copied};
ghost use Rattle.values.specs.Seeing.{option_value};
ghost use Rattle.operations.specs.States.{Gives};
ghost use Rattle.operations.specs.Items.{or_fault};
ghost use Rattle.operations.specs.Names.{global, set_global, set_loaded, load, define, defaults};
ghost use Rattle.operations.specs.Names.{listed, name_value};
ghost use Rattle.language.specs.Place.{of_state};
ghost use Rattle.language.specs.Language.{made_id};
ghost use Rattle.ticks.specs.Ticking.{Says};
ghost use Rattle.frames.specs.Answers.{id_seen};
ghost use Rattle.frames.specs.Kept.{defaults_seen};

use crate::functions::made_id;
use frames::{Defaults, FunctionId};
use language::{Link, Whole};
use operands::Operand;
use operations::State;
use plain::Text;
use std::alloc::{AllocError, Global};
use values::{Broken, Item, Items, Kind, Value};

/// The value of a name of the top level of a file.
///
/// # Errors
///
/// `unset`, before it is bound.
pub(crate) fn global<'a, L: Link<'a>, W>(
    linked: &L,
    whole: &Whole<'a, W>,
    file: usize,
    number: usize,
) -> Result<Operand<'a>, Broken>
    ensures { Says (of_state (global (L.linked linked.now) file number) whole.now) result
        whole.now }
{
    if file == whole.state.file as usize {
        own_name(&whole.state, number)
    } else {
        lent(linked.name(file, number))
    }
}

/// The value of a name of the file that is evaluated, or `unset`.
fn own_name<'a>(state: &State<'a>, number: usize) -> Result<Operand<'a>, Broken>
    ensures { Gives (or_fault Kind.Unset (name_value state.now number)) result }
{
    match making::name_value(state, number) {
        Some(value) => Ok(value.operand()?),
        None => Err(Broken::Kind(Kind::Unset)),
    }
}

/// A value that is there, which is lent, or `unset`.
fn lent<'a>(value: Option<Item<'a>>) -> Result<Operand<'a>, Broken>
    ensures { Gives (or_fault Kind.Unset (option_value value.entry)) result }
{
    match value {
        Some(value) => Ok(Operand::lent(value)),
        None => Err(Broken::Kind(Kind::Unset)),
    }
}

/// A global of the file that is evaluated gets its value.
///
/// # Errors
///
/// `AllocError` where a count is at its greatest.
pub(crate) fn set_global<'a, W>(
    whole: &mut Whole<'a, W>,
    file: usize,
    number: usize,
    value: Operand<'a>,
) -> Result<(), AllocError>
    ensures { IfOk result (λ _. whole.new ≡ record whole.old {
      state = set_global file number value.entry whole.old.state;
    }) }
{
    let own = whole.state.file;
    if file == own as usize {
        making::set_global(&mut whole.state, own, number, value);
    }
    Ok(())
}

/// A name that one of its loads binds gets its value.
pub(crate) fn set_loaded<'a, W>(
    whole: &mut Whole<'a, W>,
    file: usize,
    number: usize,
    value: Operand<'a>,
)
    ensures { whole.new ≡ record whole.old {
      state = set_loaded file number value.entry whole.old.state;
    } }
{
    let own = whole.state.file;
    if file == own as usize {
        making::set_loaded(&mut whole.state, own, number, value);
    }
}

/// What a load of a file asks a module for.
///
/// # Errors
///
/// `unset`, where there is no such name.
pub(crate) fn load<'a, L: Link<'a>, W>(
    linked: &L,
    whole: &Whole<W>,
    file: usize,
    from: &Text,
    name: &Text,
) -> Result<Operand<'a>, Broken>
    ensures { Says (of_state (load (L.linked linked.now) file from.now name.now) whole.now) result
        whole.now }
{
    match linked.asked(file, from, name) {
        Ok(value) => lent(value),
        Err(_) => Err(Broken::NoMemory),
    }
}

/// The function that a `def` makes, with the values of its defaults. A number that is too large for
/// a value is answered as want of memory.
pub(crate) fn define<'a, W>(
    alloc: Global,
    whole: &mut Whole<'a, W>,
    function: FunctionId,
    name: &Text,
    defaults: Items<'a>,
) -> Result<Value, Broken>
    ensures { Says (of_state (define (made_id (id_seen function)) name.now defaults.entry)
        whole.old) result whole.new }
{
    match made_id(function) {
        Some(id) => making::define(alloc, &mut whole.state, id, name, defaults),
        None => Err(Broken::NoMemory),
    }
}

/// The defaults that a function's `def` kept, which a linked module lends.
pub(crate) fn defaults<'a, 'b, L: Link<'a>>(
    linked: &L,
    state: &'b State<'a>,
    function: FunctionId,
) -> Defaults<'a, 'b>
    ensures { defaults_seen result
        ≡ defaults (L.linked linked.now) (made_id (id_seen function)) state.now }
{
    if function.file == state.file as usize {
        kept(state.defaults.get(function.number))
    } else {
        Defaults::Lent(linked.defaults(function.file, function.number))
    }
}

/// Defaults that the state keeps, none where it keeps nothing.
fn kept<'a, 'b>(defaults: Option<&'b Items<'a>>) -> Defaults<'a, 'b>
    ensures { defaults_seen result ≡ listed (option_copied defaults.entry) }
{
    match defaults {
        Some(defaults) => Defaults::Kept(defaults.as_slice()),
        None => Defaults::Lent(&[]),
    }
}
