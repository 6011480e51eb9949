//! What runs, and what calls and the ends of functions do to it.

ghost use Rattle.std.specs.Prelude.{◌≡◌, ◌<◌, ◌≤◌, ◌^◌, [], ◌∷◌, List, Some, drop, suc, length};
ghost use Rattle.std.specs.Prelude.{map, option_map, IfOk, IfSome};
ghost use Rattle.code.specs.View.{source_seen};
ghost use Rattle.meaning.specs.Entry.{called, paired};
ghost use Rattle.meaning.specs.Instructions as instr;
ghost use Rattle.meaning.specs.Instructions.{code_at};
ghost use Rattle.meaning.specs.Machine as machine;
ghost use Rattle.ticks.specs.Ticking.{Says};
ghost use Rattle.frames.specs.Answers.{callee_seen, id_seen};
ghost use Rattle.frames.specs.Seen.{here_of, walk_seen, walks_seen};
ghost use Rattle.call_stack.specs.ActiveView.{ids_seen};
ghost use Rattle.call_stack.specs.CallView.{arguments_seen, entered, frame_seen};
ghost use Rattle.call_stack.specs.Filled.{by_position, top_of};
ghost use Rattle.call_stack.specs.LinkedView.{codes_of};
ghost use Rattle.call_stack.specs.RunView.{Calling, Does, Moves, asked};

use crate::active::Active;
use crate::calling::{Arguments, Called, Place, call_by_position, call_known, function_of};
use crate::linked::Linked;
use code::{Defined, FunctionCode, Source};
use frames::{
    Callee, Frame, FunctionId, Operate, Refusal, Stack, Step, Stop, Walk, refused, stop_at, take,
    take_items, taken_from,
};
use operands::Operand;
use plain::Text;
use std::alloc::AllocError;
use std::mem::replace;
use values::{Broken, Items, Value};

/// A run that goes on: the frame of the function that runs, those of its callers, and the functions
/// that are active.
#[derive(Drop)]
pub struct Running<'a, T> {
    /// The frame of the function that runs.
    pub top: Box<Frame<'a, T>>,
    /// Those of its callers, the innermost at the top.
    pub below: Stack<Box<Frame<'a, T>>>,
    /// The functions that are active.
    pub active: Active<'a, T>,
}

/// A function written in Starlark, with its code.
#[derive(Clone, Copy)]
struct Written<'a> {
    function: FunctionId,
    code: &'a FunctionCode,
}

/// What an instruction calls, and with which arguments.
#[derive(Drop)]
pub(crate) struct Asked<'a> {
    pub(crate) callee: Callee<'a>,
    pub(crate) arguments: Arguments<'a>,
}

/// The arguments of what an instruction calls are taken: the values of the names are at the top,
/// those by position below them.
#[tactic(auto, using(frames::proofs::Popping::pops_popped))]
#[inline(always)]
fn take_call<'a, W: Operate<'a>>(
    world: &W,
    count: usize,
    names: &'a [Text],
    callee: Callee<'a>,
    values: &mut Stack<Operand<'a>>,
    active: &mut Active<'a, W::Walk>,
) -> Result<Option<Asked<'a>>, AllocError>
    ensures same { active.new ≡ active.old }
    ensures asks { (go : Calling W.State) (callees : List Callee) → IfOk result (λ o. machine.pops
        (length names.now) [] values.old
        (λ ws os. machine.pops count [] os (λ vs os. go (callee_seen callee.entry)
        (record { items = vs; named = paired names.now ws }) os (map callee_seen callees)))
        ≡ asked o values.new callees go) }
    ensures called { IfOk result (λ o. IfSome o (λ a. a.callee ≡ callee.entry)) }
{
    let mut named = Stack::new(world.alloc());
    if !take(names.len(), values, &mut named)? {
        return Ok(None);
    }
    let mut items = active.spare_arguments(world.alloc());
    if !take(count, values, &mut items)? {
        return Ok(None);
    }
    Ok(Some(Asked {
        callee,
        arguments: Arguments {
            items,
            names,
            named,
        },
    }))
}

/// The run goes on with what a call came to.
#[inline(always)]
fn go_on<'a, W: Operate<'a>>(
    _world: &W,
    called: Called<'a, W::Walk>,
    r: &mut Running<'a, W::Walk>,
) -> Result<Step, Stop>
    ensures { (s : W.State) → Moves W.rest
        (entered W.rest (frame_seen W.rest r.old.top ∷ map (frame_seen W.rest) r.old.below)
        (ids_seen r.old.active) called.entry s) result r.new s }
{
    match called {
        Called::Value(value) => {
            let top = &mut *r.top;
            top.values.push(value)?;
        }
        Called::Frame(frame) => {
            let caller = replace(&mut r.top, frame);
            r.below.push(caller)?;
        }
    }
    Ok(Step::More)
}

/// The innermost function ends with a value, which its caller gets; without a caller the run is
/// over.
#[inline(always)]
fn leave_with<'a, W: Operate<'a>>(
    _world: &W,
    value: Operand<'a>,
    r: &mut Running<'a, W::Walk>,
) -> Result<Step, Stop>
    ensures { (s : W.State) → Moves W.rest
        (machine.returning value.entry (map (frame_seen W.rest) r.old.below) (machine.outer
        (ids_seen r.old.active)) s) result r.new s }
{
    r.active.leave();
    match r.below.pop() {
        None => Ok(Step::Over(value.into_value()?)),
        Some(caller) => {
            let ended = replace(&mut r.top, caller);
            r.active.keep(ended);
            let top = &mut *r.top;
            top.values.push(value)?;
            Ok(Step::More)
        }
    }
}

/// Walks end, the first one first.
fn end_outer<'a, W: Operate<'a>>(
    world: &W,
    walks: &mut Stack<Walk<'a, W::Walk>>,
    state: &mut W::State,
)
    ensures { state.new ≡ machine.all_ended (W.operations world.now) (map (walk_seen W.rest)
        walks.old) state.old }
{
    while let Some(walk) = walks.pop() {
        world.end(state, walk.of.item());
    }
}

/// All walks of a frame end, the innermost first.
fn end_walks<'a, W: Operate<'a>>(
    world: &W,
    walk: &Option<Walk<'a, W::Walk>>,
    outer: &mut Stack<Walk<'a, W::Walk>>,
    state: &mut W::State,
)
    ensures { state.new ≡ machine.all_ended (W.operations world.now) (walks_seen W.rest
        walk.now outer.old) state.old }
{
    if let Some(walk) = walk {
        world.end(state, walk.of.item());
        end_outer(world, outer, state);
    }
}

/// A call, of what an instruction asks for.
#[inline(always)]
pub(crate) fn call_asked<'a, W: Operate<'a>>(
    world: &W,
    linked: &'a Linked,
    line: usize,
    asked: Asked<'a>,
    known: Option<FunctionId>,
    r: &mut Running<'a, W::Walk>,
    state: &mut W::State,
) -> Result<Step, Stop>
    requires { option_map id_seen known
        ≡ called (W.operations world.now) (callee_seen asked.callee) }
    ensures { Moves W.rest (machine.start (W.operations world.now) (codes_of linked.now)
        (here_of r.old.top.value line (ids_seen r.old.active)) (callee_seen asked.entry.callee)
        (arguments_seen asked.entry.arguments)
        (frame_seen W.rest r.old.top ∷ map (frame_seen W.rest) r.old.below) state.old) result r.new
        state.new }
{
    let Asked { callee, arguments } = asked;
    let place = Place {
        file: r.top.function.file,
        line,
    };
    let active = &mut r.active;
    let called = call_known(
        world, linked, place, &callee, known, arguments, active, state,
    )?;
    go_on(world, called, r)
}

/// A call of something with so many values by position, and those of these names behind them.
#[inline(always)]
fn call_taken<'a, W: Operate<'a>>(
    world: &W,
    linked: &'a Linked,
    line: usize,
    count: usize,
    names: &'a [Text],
    callee: Callee<'a>,
    known: Option<FunctionId>,
    r: &mut Running<'a, W::Walk>,
    state: &mut W::State,
) -> Result<Step, Stop>
    requires place { r.old.top.value.place < 2 ^ 63 }
    requires known { option_map id_seen known
        ≡ called (W.operations world.now) (callee_seen callee) }
    ensures { Moves W.rest (machine.pops (length names.now) [] r.old.top.value.values (λ ws os.
        machine.pops count [] os (λ vs os. machine.start (W.operations world.now)
        (codes_of linked.now) (here_of r.old.top.value line (ids_seen r.old.active))
        (callee_seen callee.entry) (record { items = vs; named = paired names.now ws })
        (record (frame_seen W.rest r.old.top) { pc = suc r.old.top.value.place; values = os }
        ∷ map (frame_seen W.rest) r.old.below) state.old))) result r.new state.new }
{
    let top = &mut *r.top;
    let asked = take_call(world, count, names, callee, &mut top.values, &mut r.active)?;
    let Some(asked) = asked else {
        return Ok(Step::Stuck);
    };
    top.place += 1;
    call_asked(world, linked, line, asked, known, r, state)
}

/// The code of this function, if there is one, where it is called by position with so many values,
/// which are there, and has parameters for them.
#[inline(always)]
fn code_for<'a>(
    linked: &'a Linked,
    known: Option<FunctionId>,
    count: usize,
    names: &[Text],
    there: usize,
) -> Option<Written<'a>>
    ensures function { IfSome result (λ w. known ≡ Some w.function) }
    ensures code { IfSome result (λ w. code_at (codes_of linked.now) (id_seen w.function)
        ≡ Some w.code.now) }
    ensures bare { IfSome result (λ w. length names.now ≡ 0) }
    ensures enough { IfSome result (λ w. count ≤ there) }
    ensures few { IfSome result (λ w. count ≤ length w.code.now.params) }
{
    let function = known?;
    let code = linked.function(function)?;
    if names.len() == 0 && count <= there && count <= code.params().len() {
        Some(Written { function, code })
    } else {
        None
    }
}

/// A function written in Starlark is called with so many values of the top, for which it has
/// parameters.
#[inline(always)]
fn go_into<'a, W: Operate<'a>>(
    world: &W,
    line: usize,
    count: usize,
    function: FunctionId,
    code: &FunctionCode,
    r: &mut Running<'a, W::Walk>,
    state: &mut W::State,
) -> Result<Step, Stop>
    requires place { r.old.top.value.place < 2 ^ 63 }
    requires there { count ≤ length r.old.top.value.values }
    requires few { count ≤ length code.now.params }
    ensures { (codes : instr.Codes) → Moves W.rest (machine.starts (W.operations world.now) codes
        (here_of r.old.top.value line (ids_seen r.old.active)) (id_seen function)
        (by_position (top_of count [] r.old.top.value.values))
        (record (frame_seen W.rest r.old.top) {
          pc = suc r.old.top.value.place;
          values = drop count r.old.top.value.values;
        } ∷ map (frame_seen W.rest) r.old.below)
        state.old (Some code.now)) result r.new state.new }
{
    let top = &mut *r.top;
    let place = Place {
        file: top.function.file,
        line,
    };
    let values = &mut top.values;
    let active = &mut r.active;
    let frame = call_by_position(world, place, function, code, count, values, active, state)?;
    top.place += 1;
    go_on(world, Called::Frame(frame), r)
}

/// A call with so many values by position, and those of these names behind them.
///
/// # Errors
///
/// [`Stop::Fault`] at this line where the call is refused, or where what isn't written in Starlark
/// ends with a fault. [`Stop::NoMemory`] where memory is refused.
#[inline(never)]
pub fn call_with<'a, W: Operate<'a>>(
    world: &W,
    linked: &'a Linked,
    line: usize,
    count: usize,
    names: &'a [Text],
    r: &mut Running<'a, W::Walk>,
    state: &mut W::State,
) -> Result<Step, Stop>
    requires { r.old.top.value.place < 2 ^ 63 }
    ensures { Does W.rest (W.operations world.now) (codes_of linked.now) line (instr.call count
        names.now) r.old state.old
        result r.new state.new }
{
    let top = &mut *r.top;
    let Some(callee) = top.callees.pop() else {
        return Ok(Step::Stuck);
    };
    let known = function_of(world, &callee);
    match code_for(linked, known, count, names, top.values.len()) {
        Some(written) => go_into(world, line, count, written.function, written.code, r, state),
        None => call_taken(world, linked, line, count, names, callee, known, r, state),
    }
}

/// A function gives the top back, when its walks have ended.
///
/// # Errors
///
/// [`Stop::NoMemory`] where memory is refused.
#[inline(never)]
pub fn give_back<'a, W: Operate<'a>>(
    world: &W,
    line: usize,
    r: &mut Running<'a, W::Walk>,
    state: &mut W::State,
) -> Result<Step, Stop>
    ensures { (codes : instr.Codes) → Does W.rest (W.operations world.now) codes line
        instr.give_back r.old state.old result
        r.new state.new }
{
    let top = &mut *r.top;
    let Some(value) = top.values.pop() else {
        return Ok(Step::Stuck);
    };
    end_walks(world, &top.walk, &mut top.outer, state);
    leave_with(world, value, r)
}

/// A function gives back what a source is, when its walks have ended.
///
/// # Errors
///
/// [`Stop::Fault`] at this line where the source is a slot in which nothing is set.
/// [`Stop::NoMemory`] where memory is refused.
#[inline(never)]
pub fn give_back_from<'a, W: Operate<'a>>(
    world: &W,
    line: usize,
    source: Source,
    r: &mut Running<'a, W::Walk>,
    state: &mut W::State,
) -> Result<Step, Stop>
    ensures { (codes : instr.Codes) → Does W.rest (W.operations world.now) codes line
        (instr.give_back_from (source_seen source)) r.old state.old result
        r.new state.new }
{
    let top = &mut *r.top;
    let Some(value) = taken_from(world, source, &mut top.slots)? else {
        return Err(refused(world, Refusal::Unset, top.function.file, line));
    };
    end_walks(world, &top.walk, &mut top.outer, state);
    leave_with(world, value, r)
}

/// To the next turn of the innermost walk; without a walk the function ends.
///
/// # Errors
///
/// [`Stop::NoMemory`] where memory is refused.
#[inline(always)]
pub fn again<'a, W: Operate<'a>>(
    world: &W,
    line: usize,
    r: &mut Running<'a, W::Walk>,
) -> Result<Step, Stop>
    ensures { (codes : instr.Codes) (s : W.State) → Does W.rest (W.operations world.now) codes
        line instr.again r.old s result
        r.new s }
{
    if r.top.walk.is_none() {
        leave_with(world, Operand::own(world.none()), r)
    } else {
        frames::again(world, line, &mut *r.top)
    }
}

/// To the next turn of the innermost walk, which begins at once, with its item in a slot; without a
/// walk the function ends.
///
/// # Errors
///
/// [`Stop::Fault`] at this line where the tick of the turn is one too many. [`Stop::NoMemory`]
/// where memory is refused, or where no place is behind the one where the turn begins.
#[inline(always)]
pub fn again_into<'a, W: Operate<'a>>(
    world: &W,
    line: usize,
    slot: usize,
    r: &mut Running<'a, W::Walk>,
    state: &mut W::State,
) -> Result<Step, Stop>
    ensures { (codes : instr.Codes) → Does W.rest (W.operations world.now) codes line
        (instr.again_into slot) r.old state.old result
        r.new state.new }
{
    if r.top.walk.is_none() {
        leave_with(world, Operand::own(world.none()), r)
    } else {
        frames::again_into(world, line, slot, &mut *r.top, state)
    }
}

/// Out of the innermost walk; without a walk the function ends.
///
/// # Errors
///
/// [`Stop::NoMemory`] where memory is refused.
pub fn stop_walk<'a, W: Operate<'a>>(
    world: &W,
    line: usize,
    r: &mut Running<'a, W::Walk>,
    state: &mut W::State,
) -> Result<Step, Stop>
    ensures { (codes : instr.Codes) → Does W.rest (W.operations world.now) codes line
        instr.stop_walk r.old state.old result
        r.new state.new }
{
    if r.top.walk.is_none() {
        leave_with(world, Operand::own(world.none()), r)
    } else {
        frames::stop_walk(world, line, &mut *r.top, state)
    }
}

/// The function that a `def` makes, with the name that it has in the linked code.
fn made<'a, W: Operate<'a>>(
    world: &W,
    linked: &'a Linked,
    function: FunctionId,
    defaults: Items<'a>,
    state: &mut W::State,
) -> Result<Value, Broken>
    ensures { Says ((W.operations world.now).define (id_seen function) (instr.code_name (codes_of
        linked.now) (id_seen function))
        defaults.entry state.old) result state.new }
{
    match linked.function(function) {
        Some(code) => world.define(state, function, code.name(), defaults),
        None => {
            let name = Text::new(world.alloc(), "")?;
            world.define(state, function, &name, defaults)
        }
    }
}

/// A function is made, with so many defaults.
///
/// # Errors
///
/// [`Stop::Fault`] where the operation ends with a fault: of that kind, at this line.
/// [`Stop::NoMemory`] where memory is refused.
#[tactic(auto, using(frames::proofs::Popping::pops_popped))]
pub fn define<'a, W: Operate<'a>>(
    world: &W,
    linked: &'a Linked,
    line: usize,
    defined: Defined,
    r: &mut Running<'a, W::Walk>,
    state: &mut W::State,
) -> Result<Step, Stop>
    requires { r.old.top.value.place < 2 ^ 63 }
    ensures { Does W.rest (W.operations world.now) (codes_of linked.now) line (instr.define
        defined.function defined.defaults)
        r.old state.old result r.new state.new }
{
    let top = &mut *r.top;
    let Some(defaults) = take_items(world.alloc(), defined.defaults, &mut top.values)? else {
        return Ok(Step::Stuck);
    };
    let function = FunctionId {
        file: top.function.file,
        number: defined.function,
    };
    let value = match made(world, linked, function, defaults, state) {
        Ok(value) => value,
        Err(broken) => return Err(stop_at(broken, top.function.file, line)),
    };
    top.values.push(Operand::own(value))?;
    top.place += 1;
    Ok(Step::More)
}
