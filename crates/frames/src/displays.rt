//! Displays and comprehensions.

ghost use Rattle.std.specs.Prelude.{◌<◌, ◌^◌};
ghost use Rattle.meaning.specs.Instructions as instr;
ghost use Rattle.frames.specs.Seen.{Performs};

use crate::frame::Frame;
use crate::onward::{put, put_own};
use crate::stop::{Step, Stop, stop_at};
use crate::taking::take_items;
use crate::world::Operate;

/// A list of so many values.
///
/// # Errors
///
/// [`Stop::Fault`] where the operation ends with a fault: of that kind, at this line.
/// [`Stop::NoMemory`] where memory is refused.
#[tactic(auto, using(crate::proofs::Popping::pops_popped))]
pub fn make_list<'a, W: Operate<'a>>(
    world: &W,
    line: usize,
    count: usize,
    f: &mut Frame<'a, W::Walk>,
    state: &mut W::State,
) -> Result<Step, Stop>
    requires { f.old.place < 2 ^ 63 }
    ensures { Performs W.rest (W.operations world.now) line (instr.make_list count) f.old
        state.old result
        f.new state.new }
{
    let Some(items) = take_items(world.alloc(), count, &mut f.values)? else {
        return Ok(Step::Stuck);
    };
    let given = world.new_list(state, items);
    put_own(f, line, given)
}

/// A tuple of so many values.
///
/// # Errors
///
/// [`Stop::Fault`] where the operation ends with a fault: of that kind, at this line.
/// [`Stop::NoMemory`] where memory is refused.
#[tactic(auto, using(crate::proofs::Popping::pops_popped))]
pub fn make_tuple<'a, W: Operate<'a>>(
    world: &W,
    line: usize,
    count: usize,
    f: &mut Frame<'a, W::Walk>,
    state: &mut W::State,
) -> Result<Step, Stop>
    requires { f.old.place < 2 ^ 63 }
    ensures { Performs W.rest (W.operations world.now) line (instr.make_tuple count) f.old
        state.old result
        f.new state.new }
{
    let Some(items) = take_items(world.alloc(), count, &mut f.values)? else {
        return Ok(Step::Stuck);
    };
    let given = world.new_tuple(state, items);
    put_own(f, line, given)
}

/// A dict without entries.
///
/// # Errors
///
/// [`Stop::Fault`] where the operation ends with a fault: of that kind, at this line.
/// [`Stop::NoMemory`] where memory is refused.
pub fn new_dict<'a, W: Operate<'a>>(
    world: &W,
    line: usize,
    f: &mut Frame<'a, W::Walk>,
    state: &mut W::State,
) -> Result<Step, Stop>
    requires { f.old.place < 2 ^ 63 }
    ensures { Performs W.rest (W.operations world.now) line instr.new_dict f.old state.old result
        f.new state.new }
{
    let given = world.new_dict(state);
    put_own(f, line, given)
}

/// An item for the list below it, which stays.
///
/// # Errors
///
/// [`Stop::Fault`] where the operation ends with a fault: of that kind, at this line.
/// [`Stop::NoMemory`] where memory is refused.
pub fn collect<'a, W: Operate<'a>>(
    world: &W,
    line: usize,
    f: &mut Frame<'a, W::Walk>,
    state: &mut W::State,
) -> Result<Step, Stop>
    requires { f.old.place < 2 ^ 63 }
    ensures { Performs W.rest (W.operations world.now) line instr.collect f.old state.old result
        f.new state.new }
{
    let Some(item) = f.values.pop() else {
        return Ok(Step::Stuck);
    };
    let Some(list) = f.values.pop() else {
        return Ok(Step::Stuck);
    };
    if let Err(broken) = world.collect(state, list.item(), item) {
        return Err(stop_at(broken, f.function.file, line));
    }
    put(f, list)
}

/// An entry of a display for the dict below it, which stays.
///
/// # Errors
///
/// [`Stop::Fault`] where the operation ends with a fault: of that kind, at this line.
/// [`Stop::NoMemory`] where memory is refused.
pub fn enter<'a, W: Operate<'a>>(
    world: &W,
    line: usize,
    f: &mut Frame<'a, W::Walk>,
    state: &mut W::State,
) -> Result<Step, Stop>
    requires { f.old.place < 2 ^ 63 }
    ensures { Performs W.rest (W.operations world.now) line instr.enter f.old state.old result
        f.new state.new }
{
    let Some(value) = f.values.pop() else {
        return Ok(Step::Stuck);
    };
    let Some(key) = f.values.pop() else {
        return Ok(Step::Stuck);
    };
    let Some(dict) = f.values.pop() else {
        return Ok(Step::Stuck);
    };
    if let Err(broken) = world.enter(state, dict.item(), &key, value) {
        return Err(stop_at(broken, f.function.file, line));
    }
    put(f, dict)
}

/// An entry of a comprehension for the dict below it, which stays.
///
/// # Errors
///
/// [`Stop::Fault`] where the operation ends with a fault: of that kind, at this line.
/// [`Stop::NoMemory`] where memory is refused.
pub fn keep<'a, W: Operate<'a>>(
    world: &W,
    line: usize,
    f: &mut Frame<'a, W::Walk>,
    state: &mut W::State,
) -> Result<Step, Stop>
    requires { f.old.place < 2 ^ 63 }
    ensures { Performs W.rest (W.operations world.now) line instr.keep f.old state.old result
        f.new state.new }
{
    let Some(value) = f.values.pop() else {
        return Ok(Step::Stuck);
    };
    let Some(key) = f.values.pop() else {
        return Ok(Step::Stuck);
    };
    let Some(dict) = f.values.pop() else {
        return Ok(Step::Stuck);
    };
    if let Err(broken) = world.keep(state, dict.item(), &key, value) {
        return Err(stop_at(broken, f.function.file, line));
    }
    put(f, dict)
}
