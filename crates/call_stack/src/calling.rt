//! Calls.

ghost use Rattle.std.specs.Prelude.{◌≡◌, ◌≤◌, [], List, Some, drop, length, option_map, IfOk};
ghost use Rattle.values.specs.declared.value.Value as held;
ghost use Rattle.meaning.specs.Entry.{called, entry};
ghost use Rattle.meaning.specs.Instructions.{Codes, code_at};
ghost use Rattle.meaning.specs.Machine as machine;
ghost use Rattle.frames.specs.Answers.{id_seen, callee_seen};
ghost use Rattle.call_stack.specs.ActiveView.{ids_seen};
ghost use Rattle.call_stack.specs.CallView.{Begins, Enters, arguments_seen, frame_seen, here_at};
ghost use Rattle.call_stack.specs.Filled.{behind, by_position, fitting, rest_filled, top_of};
ghost use Rattle.call_stack.specs.LinkedView.{codes_of};

use crate::active::Active;
use crate::filling::{fill_defaults, fill_from_top, pad, slots_at_entry};
use crate::linked::Linked;
use code::FunctionCode;
use frames::{Callee, Frame, FunctionId, Operate, Refusal, Slots, Stack, Stop, refused, stop_at};
use operands::Operand;
use plain::Text;
use std::alloc::AllocError;

/// The arguments of a call: those by position, the first at the top, and those by name with their
/// names, the first at the top.
#[derive(Drop)]
pub struct Arguments<'a> {
    /// Those by position, the first at the top.
    pub items: Stack<Operand<'a>>,
    /// The names of those by name, in the order of the text.
    pub names: &'a [Text],
    /// Their values, the first at the top.
    pub named: Stack<Operand<'a>>,
}

/// Where a call stands: the number of its file, and its line.
#[derive(Clone, Copy)]
pub struct Place {
    /// The number of its file among those that are linked.
    pub file: usize,
    /// The line, counted from 1.
    pub line: usize,
}

/// What a call comes to: the value of what isn't written in Starlark, or the frame of a function
/// that is.
#[derive(Drop)]
pub enum Called<'a, T> {
    /// The value that the call gives.
    Value(Operand<'a>),
    /// The frame of the function, at its first instruction.
    Frame(Box<Frame<'a, T>>),
}

/// A function may be active once, and 128 functions at most.
const MOST_ACTIVE: usize = 128;

/// A frame at the first instruction of a function, with the slots that it has; what else was in it
/// is let go.
#[inline(always)]
pub fn frame_at_entry<'a, T: Drop>(
    frame: Box<Frame<'a, T>>,
    function: FunctionId,
) -> Box<Frame<'a, T>>
    ensures { (rest : T → List held.Value) → frame_seen rest result ≡ machine.frame_of (id_seen
        function) frame.entry.value.slots }
{
    let mut frame = frame;
    frame.start(function);
    frame
}

/// A function whose arguments fit becomes active, if it isn't yet and if not too many are, with the
/// tick of its call.
#[inline(always)]
fn enter<'a, W: Operate<'a>>(
    world: &W,
    place: Place,
    function: FunctionId,
    frame: Box<Frame<'a, W::Walk>>,
    active: &mut Active<'a, W::Walk>,
    state: &mut W::State,
) -> Result<Box<Frame<'a, W::Walk>>, Stop>
    ensures { (codes : Codes) → Begins W.rest (λ below. machine.starting (W.operations world.now)
        codes
        (here_at place (ids_seen active.old)) (id_seen function) below state.old
        (Some frame.entry.value.slots)) result (ids_seen active.new) state.new }
{
    if active.contains(function) {
        return Err(refused(world, Refusal::Recursion, place.file, place.line));
    }
    if active.len() >= MOST_ACTIVE {
        return Err(refused(world, Refusal::Deep, place.file, place.line));
    }
    if let Err(broken) = world.tick(state) {
        return Err(stop_at(broken, place.file, place.line));
    }
    active.enter(function)?;
    Ok(frame_at_entry(frame, function))
}

/// A function written in Starlark is called: the tests of the call, its tick, and a new frame.
///
/// # Errors
///
/// [`Stop::Fault`] at the place of the call: where there is no such function, the arguments don't
/// fit its parameters, it is active already, too many functions are, or the tick of the call is one
/// too many. [`Stop::NoMemory`] where memory is refused.
#[inline(always)]
pub fn call_function<'a, W: Operate<'a>>(
    world: &W,
    linked: &'a Linked,
    place: Place,
    function: FunctionId,
    arguments: Arguments<'a>,
    active: &mut Active<'a, W::Walk>,
    state: &mut W::State,
) -> Result<Box<Frame<'a, W::Walk>>, Stop>
    ensures { Begins W.rest (λ below. machine.starts (W.operations world.now) (codes_of linked.now)
        (here_at place (ids_seen active.old)) (id_seen function) (arguments_seen arguments.entry)
        below state.old
        (code_at (codes_of linked.now) (id_seen function))) result (ids_seen active.new) state.new }
{
    let Some(code) = linked.function(function) else {
        return Err(refused(world, Refusal::WrongType, place.file, place.line));
    };
    let Arguments {
        items,
        names,
        named,
    } = arguments;
    let mut items = items;
    let mut frame = active.spare(world.alloc())?;
    let defaults = world.defaults(state, function);
    let kept = &mut *frame;
    let fits = slots_at_entry(
        world.alloc(),
        &mut kept.slots,
        code.params(),
        code.slots(),
        defaults,
        &mut items,
        names,
        named,
    )?;
    active.keep_arguments(items);
    if !fits {
        return Err(refused(world, Refusal::Arity, place.file, place.line));
    }
    enter(world, place, function, frame, active, state)
}

/// The same as [`fill_defaults`], with the defaults of a function: the world isn't asked for them
/// where no parameter is left.
#[inline(always)]
fn fill_rest<'a, W: Operate<'a>>(
    world: &W,
    function: FunctionId,
    params: &[Text],
    slots: &mut Slots<'a>,
    state: &W::State,
) -> Result<bool, AllocError>
    ensures { IfOk result (λ fits. fitting fits slots.new ≡ behind slots.old
        (rest_filled params.now (length slots.old) ((W.operations world.now).defaults
        (id_seen function) state.now))) }
{
    if slots.len() < params.len() {
        fill_defaults(slots, params, world.defaults(state, function))
    } else {
        Ok(true)
    }
}

/// The slots at the entry of a function that is called with so many values of the top of a stack,
/// which are there, in the memory of these slots; whether each other parameter has a default.
#[inline(always)]
fn slots_by_position<'a, W: Operate<'a>>(
    world: &W,
    function: FunctionId,
    code: &FunctionCode,
    count: usize,
    values: &mut Stack<Operand<'a>>,
    slots: &mut Slots<'a>,
    state: &W::State,
) -> Result<bool, AllocError>
    requires there { count ≤ length values.old }
    requires few { count ≤ length code.now.params }
    ensures fills { IfOk result (λ fits. fitting fits slots.new ≡ entry code.now.params
        code.now.slots ((W.operations world.now).defaults (id_seen function) state.now)
        (by_position (top_of count [] values.old))) }
    ensures left { IfOk result (λ _. values.new ≡ drop count values.old) }
{
    let params = code.params();
    slots.let_go();
    slots.reserve(code.slots())?;
    fill_from_top(slots, count, values)?;
    let fits = fill_rest(world, function, params, slots, state)?;
    if !fits {
        return Ok(false);
    }
    pad(slots, code.slots().saturating_sub(params.len()))?;
    Ok(true)
}

/// A function written in Starlark that has parameters for so many values of the top of a stack is
/// called with them: the tests of the call, its tick, and a new frame.
#[inline(always)]
pub(crate) fn call_by_position<'a, W: Operate<'a>>(
    world: &W,
    place: Place,
    function: FunctionId,
    code: &FunctionCode,
    count: usize,
    values: &mut Stack<Operand<'a>>,
    active: &mut Active<'a, W::Walk>,
    state: &mut W::State,
) -> Result<Box<Frame<'a, W::Walk>>, Stop>
    requires there { count ≤ length values.old }
    requires few { count ≤ length code.now.params }
    ensures begins { (codes : Codes) → Begins W.rest (λ below. machine.starts (W.operations
        world.now) codes
        (here_at place (ids_seen active.old)) (id_seen function)
        (by_position (top_of count [] values.old)) below state.old (Some code.now)) result
        (ids_seen active.new) state.new }
    ensures left { IfOk result (λ _. values.new ≡ drop count values.old) }
{
    let mut frame = active.spare(world.alloc())?;
    let kept = &mut *frame;
    let fits = slots_by_position(world, function, code, count, values, &mut kept.slots, state)?;
    if !fits {
        return Err(refused(world, Refusal::Arity, place.file, place.line));
    }
    enter(world, place, function, frame, active, state)
}

/// Which function written in Starlark is called, if one is.
#[inline(always)]
pub(crate) fn function_of<'a, W: Operate<'a>>(world: &W, callee: &Callee) -> Option<FunctionId>
    ensures { option_map id_seen result ≡ called (W.operations world.now) (callee_seen callee.now) }
{
    match callee {
        Callee::Plain(value) => world.function(value.item()),
        Callee::Method(_, _) => None,
    }
}

/// A call of what is known to be this function written in Starlark, or to be none.
#[inline(always)]
pub(crate) fn call_known<'a, W: Operate<'a>>(
    world: &W,
    linked: &'a Linked,
    place: Place,
    callee: &Callee<'a>,
    known: Option<FunctionId>,
    arguments: Arguments<'a>,
    active: &mut Active<'a, W::Walk>,
    state: &mut W::State,
) -> Result<Called<'a, W::Walk>, Stop>
    requires { option_map id_seen known ≡ called (W.operations world.now) (callee_seen callee.now) }
    ensures { Enters W.rest (λ below. machine.start (W.operations world.now) (codes_of linked.now)
        (here_at place (ids_seen active.old)) (callee_seen callee.now) (arguments_seen
        arguments.entry) below state.old) result
        (ids_seen active.new) state.new }
{
    if let Some(function) = known {
        let frame = call_function(world, linked, place, function, arguments, active, state)?;
        return Ok(Called::Frame(frame));
    }
    let Arguments {
        items,
        names,
        named,
    } = arguments;
    let mut items = items;
    let answer = world.call(state, callee, &mut items, names, named);
    active.keep_arguments(items);
    match answer {
        Ok(value) => Ok(Called::Value(value)),
        Err(broken) => Err(stop_at(broken, place.file, place.line)),
    }
}

/// A call: of a function written in Starlark, which gives its frame, or of something else, which
/// gives its value.
///
/// # Errors
///
/// [`Stop::Fault`] at the place of the call: that of [`call_function`], or that of what isn't
/// written in Starlark. [`Stop::NoMemory`] where memory is refused.
#[inline(always)]
pub fn call<'a, W: Operate<'a>>(
    world: &W,
    linked: &'a Linked,
    place: Place,
    callee: &Callee<'a>,
    arguments: Arguments<'a>,
    active: &mut Active<'a, W::Walk>,
    state: &mut W::State,
) -> Result<Called<'a, W::Walk>, Stop>
    ensures { Enters W.rest (λ below. machine.start (W.operations world.now) (codes_of linked.now)
        (here_at place (ids_seen active.old)) (callee_seen callee.now) (arguments_seen
        arguments.entry) below state.old) result
        (ids_seen active.new) state.new }
{
    let known = function_of(world, callee);
    call_known(
        world, linked, place, callee, known, arguments, active, state,
    )
}
