//! Runs, from their start to their end.

ghost use Rattle.std.specs.Prelude.{◌≡◌, [], IfOk};
ghost use Rattle.meaning.specs.Correct.{call_start, function_start, top_start};
ghost use Rattle.meaning.specs.Functions.{Files};
ghost use Rattle.meaning.specs.StatementCode.{code_of};
ghost use Rattle.frames.specs.Answers.{callee_seen, id_seen};
ghost use Rattle.call_stack.specs.CallView.{arguments_seen};
ghost use Rattle.call_stack.specs.LinkedView.{codes_of};
ghost use Rattle.machine.specs.StartView.{Answers, Comes, Starts, meaning_of, start_of};

use crate::stepping::{Current, step};
use call_stack::{
    Active, Arguments, Called, Linked, Place, Running, call, call_function, frame_at_entry, unset,
};
use frames::{Callee, Frame, FunctionId, Operate, Refusal, Slots, Stack, Step, Stop, refused};
use std::alloc::{AllocError, Global};
use values::{Kind, Value};

/// What is run.
#[derive(Drop)]
pub enum Start<'a> {
    /// A value, or a method of one, is called at a place of a file, with these arguments.
    Call(Place, Callee<'a>, Arguments<'a>),
    /// A function is called at the line of its `def`, whatever value it has: so an implementation
    /// is called.
    Function(FunctionId, Arguments<'a>),
    /// The top level of a file, by the number of the file.
    TopLevel(usize),
}

/// What a start comes to: a value at once, or a run.
#[derive(Drop)]
pub(crate) enum Begun<'a, T> {
    Over(Value),
    Running(Running<'a, T>),
}

/// A function runs, which has no caller.
fn alone<'a, T: Drop>(
    alloc: Global,
    top: Box<Frame<'a, T>>,
    active: Active<'a, T>,
) -> Running<'a, T>
    ensures { result ≡ record { top = top.entry; below = []; active = active.entry } }
{
    Running {
        top,
        below: Stack::new(alloc),
        active,
    }
}

/// A call of a value begins.
fn begin_call<'a, W: Operate<'a>>(
    world: &W,
    linked: &'a Linked,
    place: Place,
    callee: &Callee<'a>,
    arguments: Arguments<'a>,
    state: &mut W::State,
) -> Result<Begun<'a, W::Walk>, Stop>
    ensures { Starts W.rest (call_start (W.operations world.now) (codes_of linked.now) place.file
        place.line (callee_seen callee.now) (arguments_seen arguments.entry) state.old) result
        state.new }
{
    let mut active: Active<'a, W::Walk> = Active::new(world.alloc());
    match call(world, linked, place, callee, arguments, &mut active, state) {
        Ok(Called::Value(value)) => Ok(Begun::Over(value.into_value()?)),
        Ok(Called::Frame(top)) => Ok(Begun::Running(alone(world.alloc(), top, active))),
        Err(stop) => Err(stop),
    }
}

/// A call of a function begins, at the line of its `def`.
fn begin_function<'a, W: Operate<'a>>(
    world: &W,
    linked: &'a Linked,
    function: FunctionId,
    arguments: Arguments<'a>,
    state: &mut W::State,
) -> Result<Begun<'a, W::Walk>, Stop>
    ensures { Starts W.rest (function_start (W.operations world.now) (codes_of linked.now)
        (id_seen function) (arguments_seen arguments.entry) state.old) result state.new }
{
    let file = function.file;
    let Some(line) = linked.def_line(function) else {
        return Err(refused(world, Refusal::WrongType, file, 0));
    };
    let mut active: Active<'a, W::Walk> = Active::new(world.alloc());
    let place = Place { file, line };
    match call_function(
        world,
        linked,
        place,
        function,
        arguments,
        &mut active,
        state,
    ) {
        Ok(top) => Ok(Begun::Running(alone(world.alloc(), top, active))),
        Err(stop) => Err(stop),
    }
}

/// A frame with these slots, in which nothing else is.
fn frame_with<'a, T: Drop>(alloc: Global, slots: Slots<'a>) -> Result<Box<Frame<'a, T>>, AllocError>
    ensures { IfOk result (λ frame. frame.value.slots ≡ slots.entry) }
{
    Ok(Box::new(alloc, Frame::with_slots(alloc, slots))?)
}

/// The top level of a file begins: no function is active, nothing is set in its slots, and it takes
/// no tick.
fn begin_top<'a, W: Operate<'a>>(
    world: &W,
    linked: &'a Linked,
    file: usize,
) -> Result<Begun<'a, W::Walk>, Stop>
    ensures { (s : W.State) → Starts W.rest (top_start (W.operations world.now) (codes_of
        linked.now)
        file s) result s }
{
    let function = FunctionId { file, number: 0 };
    let Some(code) = linked.function(function) else {
        return Err(refused(world, Refusal::WrongType, file, 0));
    };
    let slots = unset(world.alloc(), code.slots())?;
    let frame = frame_with(world.alloc(), slots)?;
    let top = frame_at_entry(frame, function);
    let active = Active::new(world.alloc());
    Ok(Begun::Running(alone(world.alloc(), top, active)))
}

/// A run begins.
fn begin<'a, W: Operate<'a>>(
    world: &W,
    linked: &'a Linked,
    start: Start<'a>,
    state: &mut W::State,
) -> Result<Begun<'a, W::Walk>, Stop>
    ensures { Starts W.rest (start_of (W.operations world.now) (codes_of linked.now) start.entry
        state.old) result state.new }
{
    match start {
        Start::Call(place, callee, arguments) => {
            begin_call(world, linked, place, &callee, arguments, state)
        }
        Start::Function(function, arguments) => {
            begin_function(world, linked, function, arguments, state)
        }
        Start::TopLevel(file) => begin_top(world, linked, file),
    }
}

/// A run, up to its end.
fn run<'a, W: Operate<'a>>(
    world: &W,
    linked: &'a Linked,
    start: Start<'a>,
    state: &mut W::State,
) -> Result<Value, Stop>
    ensures { Comes (W.operations world.now) (codes_of linked.now) (start_of (W.operations
        world.now)
        (codes_of linked.now) start.entry state.old) result state.new }
{
    let mut running = match begin(world, linked, start, state) {
        Ok(Begun::Running(running)) => running,
        Ok(Begun::Over(value)) => return Ok(value),
        Err(stop) => return Err(stop),
    };
    let mut current = Current::of(linked, running.top.function);
    loop {
        match step(world, linked, &mut current, &mut running, state) {
            Ok(Step::More) => {}
            Ok(Step::Over(value)) => return Ok(value),
            Ok(Step::Stuck) => unreachable!(),
            Err(stop) => return Err(stop),
        }
    }
}

/// Runs linked code. What it answers is exactly what the files mean of which it is the code: the
/// value, with the state after it and so the ticks; or the fault of that kind, in that file, at
/// that line. The machine takes one instruction after the other and doesn't recurse, whatever the
/// depth of calls.
///
/// # Errors
///
/// A fault as the files mean it; [`Stop::NoMemory`] where memory was refused; the state is open
/// then.
pub fn execute<'a, W: Operate<'a>>(
    world: &W,
    linked: &'a Linked,
    start: Start<'a>,
    state: &mut W::State,
) -> Result<Value, Stop>
    ensures means { (files : Files) → codes_of linked.now ≡ code_of files → Answers (meaning_of
        (W.operations world.now) files start.entry state.old) result state.new }
    ensures compiled { ∥ ((files : Files) × (codes_of linked.now ≡ code_of files)) ∥₁ }
{
    meaning::laws::compiled_code_is_correct::<W::State, Value, Kind>();
    run(world, linked, start, state)
}
