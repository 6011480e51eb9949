//! `dict.items()`.
ghost use Rattle.std.specs.Prelude.{◌≡◌, ◌++◌, ◌∷◌, [], Ok, Err, MatchResult, IfOk, OnOk, length};
ghost use Rattle.ticks.specs.Ticking.{FaultOr};
ghost use Rattle.values.specs.Shape.{shape};
ghost use Rattle.operations.specs.States.{Does};
ghost use Rattle.operations.specs.Making.{new_list, new_tuple, entries_in};
ghost use Rattle.operations.specs.Methods.{pairs};
ghost use Rattle.calls.specs.Pairs.{tuples_behind, tuple_behind, listed_tuples, Grown};

use crate::dicts::{keys_in, values_in};
use operations::State;
use state::{new_list, new_tuple};
use std::alloc::{AllocError, Global};
use values::{Broken, Items, Operand, Value};

/// `dict.items()`: a new list of tuples of two, which take the next cells in the order of the
/// entries.
///
/// # Errors
///
/// `NoMemory` where memory was refused; `large`, as of each new list, where the dict has more
/// entries than a list may have items, which no dict of an evaluation has. In either case no tuple
/// is left.
pub fn items<'a>(alloc: Global, state: &mut State<'a>, dict: &Operand<'a>) -> Result<Value, Broken>
    ensures { Does (pairs (entries_in (shape state.old.heap dict.now))) state.old
        result state.new }
{
    let keys = keys_in(alloc, &state.heap.see(&*dict))?;
    let values = values_in(alloc, &state.heap.see(&*dict))?;
    list_or_undo(alloc, state, keys.as_slice(), values.as_slice())
}

/// A list of the tuples. Where there is none, the tuples are let go.
fn list_or_undo<'a>(
    alloc: Global,
    state: &mut State<'a>,
    keys: &[Operand<'a>],
    values: &[Operand<'a>],
) -> Result<Value, Broken>
    requires { length keys.now ≡ length values.now }
    ensures { Does (listed_tuples keys.now values.now) state.old result state.new }
{
    let cells = state.heap.len();
    match list_tuples(alloc, state, keys, values) {
        Ok(list) => Ok(list),
        Err(broken) => {
            state.heap.truncate(cells);
            Err(broken)
        }
    }
}

/// A list of the tuples. Where there is none, the heap may have tuples more.
fn list_tuples<'a>(
    alloc: Global,
    state: &mut State<'a>,
    keys: &[Operand<'a>],
    values: &[Operand<'a>],
) -> Result<Value, Broken>
    requires { length keys.now ≡ length values.now }
    ensures grown { Grown state.old state.new }
    ensures list { MatchResult result
        (λ v. listed_tuples keys.now values.now state.old ≡ Ok (v, state.new))
        (λ e. FaultOr (listed_tuples keys.now values.now state.old) e) }
{
    let mut tuples = Items::with_capacity(alloc, keys.len())?;
    if let Err(broken) = put_tuples(alloc, state, keys, values, &mut tuples) {
        return Err(broken);
    }
    new_list(state, tuples)
}

/// Makes a tuple of each key and its value.
fn put_tuples<'a>(
    alloc: Global,
    state: &mut State<'a>,
    keys: &[Operand<'a>],
    values: &[Operand<'a>],
    tuples: &mut Items<'a>,
) -> Result<(), Broken>
    requires { length keys.now ≡ length values.now }
    ensures grown { Grown state.old state.new }
    ensures tuples { MatchResult result
        (λ _. tuples_behind tuples.old keys.now values.now state.old ≡ Ok (tuples.new, state.new))
        (λ e. FaultOr (tuples_behind tuples.old keys.now values.now state.old) e) }
{
    for (key, value) in keys.iter().zip(values) {
        if let Err(broken) = put_tuple(alloc, state, key, value, tuples) {
            return Err(broken);
        }
    }
    Ok(())
}

/// Makes a tuple of a key and its value.
fn put_tuple<'a>(
    alloc: Global,
    state: &mut State<'a>,
    key: &Operand<'a>,
    value: &Operand<'a>,
    tuples: &mut Items<'a>,
) -> Result<(), Broken>
    ensures grown { Grown state.old state.new }
    ensures tuples { MatchResult result
        (λ _. tuple_behind tuples.old key.now value.now state.old ≡ Ok (tuples.new, state.new))
        (λ e. FaultOr (tuple_behind tuples.old key.now value.now state.old) e) }
{
    let pair = pair(alloc, key, value)?;
    match new_tuple(state, pair) {
        Ok(tuple) => push(tuples, tuple),
        Err(broken) => Err(broken),
    }
}

/// Puts a tuple last.
fn push(tuples: &mut Items<'_>, tuple: Value) -> Result<(), Broken>
    ensures { MatchResult result (λ _. tuples.new ≡ tuples.old ++ tuple ∷ [])
        (λ e. e ≡ Broken.NoMemory) }
{
    match tuples.push(Operand::own(tuple)) {
        Ok(()) => Ok(()),
        Err(_) => Err(Broken::NoMemory),
    }
}

/// The items of a tuple of two.
fn pair<'a>(alloc: Global, key: &Operand<'a>, value: &Operand<'a>) -> Result<Items<'a>, AllocError>
    ensures { IfOk result (λ items. items ≡ key.now ∷ value.now ∷ []) }
{
    let mut items = Items::with_capacity(alloc, 2)?;
    put(key, &mut items)?;
    put(value, &mut items)?;
    Ok(items)
}

fn put<'a>(value: &Operand<'a>, items: &mut Items<'a>) -> Result<(), AllocError>
    ensures { OnOk result (items.new ≡ items.old ++ value.now ∷ []) }
{
    let value = value.share()?;
    items.push(value)?;
    Ok(())
}
