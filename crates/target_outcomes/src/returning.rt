//! What implementations come to, once their calls have returned.
ghost use Rattle.std.specs.Prelude.{◌≡◌, ℕ, Ok, Err, IfOk, MatchResult};
ghost use Rattle.meaning.specs.Functions.{Files, def_line};
ghost use Rattle.meaning.specs.StatementCode.{code_of};
ghost use Rattle.ticks.specs.Ticking.{Count, FaultOr, Says};
ghost use Rattle.visits.specs.Freeze.{freeze_at};
ghost use Rattle.language.specs.Language.{function_id};
ghost use Rattle.call_stack.specs.LinkedView.{codes_of};
ghost use Rattle.evaluation.specs.Runs.{implemented_with};
ghost use Rattle.implementations.specs.Implementations.{target_world};
ghost use Rattle.target_outcomes.specs.Seen.{defined_at, Implements};

use call_stack::Linked;
use contexts::Work;
use evaluator::function_id;
use heap::Heap;
use language::Whole;
use loading::Placed;
use operations::State;
use plain::Text;
use running::path_at;
use std::alloc::{AllocError, Global};
use values::{Broken, Frozen, FunctionRef, Kind, MadeId, Ticks, VISITED_LEVELS, Value};
use visits::freeze;

/// What an implementation gave: its result, frozen, and what it did.
#[derive(Drop)]
pub(crate) struct Implemented {
    /// The value that it returned, frozen.
    pub result: Frozen,
    /// The Files that it declared and the actions that it registered.
    pub work: Work,
}

/// What the call of a function returned, and the state after it with the work of its place.
pub(crate) type Returned<'a> = (Value, Box<Whole<'a, Work>>);

/// The line of a function's `def`, if it has one.
fn def_line(codes: &Linked, id: MadeId) -> Option<usize>
    ensures { (files : Files) → codes_of codes.now ≡ code_of files
        → result ≡ def_line files (function_id id) }
{
    meaning::laws::functions_have_lines();
    codes.def_line(function_id(id))
}

/// A fault at the `def` of a function.
fn at_def(
    alloc: Global,
    codes: &Linked,
    paths: &[Text],
    function: &FunctionRef,
    kind: Kind,
) -> Result<Placed<Kind>, AllocError>
    ensures { (files : Files) → codes_of codes.now ≡ code_of files
        → IfOk result (λ p. p ≡ defined_at files paths.now function.now.id kind) }
{
    Ok(Placed {
        kind,
        path: path_at(alloc, paths, function.id.module as usize)?,
        line: def_line(codes, function.id).unwrap_or(0) as u64,
    })
}

/// The tree of a value.
fn freeze_value(
    alloc: Global,
    value: &Value,
    heap: &Heap,
    ticks: &mut Ticks,
) -> Result<Frozen, Broken>
    ensures { Says (freeze_at VISITED_LEVELS heap.now value.now ticks.old) result ticks.new }
{
    freeze(alloc, value.item(), heap, ticks)
}

/// The tree of the value that an implementation returned.
fn frozen(alloc: Global, value: &Value, state: State<'_>) -> Result<Frozen, Broken>
    ensures { let s = state.entry in
        let meant = freeze_at VISITED_LEVELS s.heap value.now s.ticks in
        MatchResult result (λ t. (c : Count) × (meant ≡ Ok (t, c))) (λ e. FaultOr meant e) }
{
    let mut state = state;
    let state = &mut state;
    freeze_value(alloc, value, &state.heap, &mut state.ticks)
}

/// What an implementation comes to whose call returned this. A fault of freezing stands at the
/// `def`.
pub(crate) fn returned(
    alloc: Global,
    codes: &Linked,
    paths: &[Text],
    function: &FunctionRef,
    called: Returned<'_>,
) -> Result<Result<Implemented, Placed<Kind>>, AllocError>
    ensures { (limit : ℕ) (files : Files) → codes_of codes.now ≡ code_of files
        → IfOk result (Implements (implemented_with limit files paths.now target_world function.now
        called.entry.1.value.work (freeze_at VISITED_LEVELS called.entry.1.value.state.heap
        called.entry.0 called.entry.1.value.state.ticks))) }
{
    let (value, whole) = called;
    let Whole { state, work } = Box::into_inner(whole);
    match frozen(alloc, &value, state) {
        Ok(result) => Ok(Ok(Implemented { result, work })),
        Err(Broken::Kind(kind)) => Ok(Err(at_def(alloc, codes, paths, function, kind)?)),
        Err(Broken::NoMemory) => Err(AllocError),
    }
}
