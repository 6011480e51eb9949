//! `ctx.actions.run` and `ctx.actions.run_shell`.
ghost use Rattle.std.specs.Prelude.{◌≡◌, Ok, Err, Some, None, MatchResult, map};
ghost use Rattle.std.specs.Prelude.{option_copied, codes};
ghost use Rattle.values.specs.Seeing.{seen, group_items};
ghost use Rattle.ticks.specs.Ticking.{FaultOr};
ghost use Rattle.operations.specs.Arguments.{given};
ghost use Rattle.operations.specs.Reading.{sequence_in};
ghost use Rattle.operations.specs.States.{Gives};
ghost use Rattle.calls.specs.Parameters.{taken, got_at};
ghost use Rattle.contexts.specs.Actions.{run_of, run_with, run_parameters, some_outputs, action_of};
ghost use Rattle.implementations.specs.Programs.{parameter, program_in, given_parts};

use crate::inputs::{inputs_in, mnemonic_in, words_in};
use crate::mnemonics::Mnemonics;
use crate::parts::files;
use crate::programs::Program;
use crate::registering::registered;
use actions::Action;
use calls::{Parameter, check_arguments, got};
use contexts::Work;
use heap::Heap;
use operands::Operand;
use operations::Arguments;
use plain::Text;
use state::sequence_of;
use std::alloc::Global;
use values::{Broken, Group, Kind, Seen, Value};

/// `ctx.actions.run(*, outputs, executable, inputs = [], arguments = [], mnemonic = "Action")`, or
/// `run_shell`, which is given a command.
///
/// # Errors
///
/// `arity`, also where there are no outputs; `type`; then those of [`registered`].
pub(crate) fn run(
    alloc: Global,
    mnemonics: &Mnemonics,
    program: Program,
    heap: &Heap,
    arguments: &Arguments<'_, '_>,
    work: &mut Work,
) -> Result<Value, Broken>
    ensures { MatchResult result
        (λ v. run_of (parameter program) (program_in program) heap.now
        (given arguments.now) work.old ≡ Ok (v, work.new))
        (λ e. FaultOr (run_of (parameter program) (program_in program) heap.now
        (given arguments.now) work.old) e) }
{
    let parameters = run_parameters(program.parameter());
    if let Err(kind) = check_arguments(&parameters, arguments) {
        return Err(Broken::Kind(kind));
    }
    match (
        got(arguments, 0, "outputs"),
        got(arguments, 1, program.parameter()),
    ) {
        (Some(outputs), Some(word)) => {
            run_word(
                alloc, mnemonics, program, heap, outputs, word, arguments, work,
            )
        }
        _ => Err(Broken::Kind(Kind::Arity)),
    }
}

/// Registers the action of outputs, of a word, and of what else a call is given.
fn run_word(
    alloc: Global,
    mnemonics: &Mnemonics,
    program: Program,
    heap: &Heap,
    outputs: &Operand<'_>,
    word: &Operand<'_>,
    arguments: &Arguments<'_, '_>,
    work: &mut Work,
) -> Result<Value, Broken>
    ensures { MatchResult result
        (λ v. run_with (program_in program) heap.now work.old
        (given_parts outputs.now word.now (given arguments.now)) ≡ Ok (v, work.new))
        (λ e. FaultOr (run_with (program_in program) heap.now work.old
        (given_parts outputs.now word.now (given arguments.now))) e) }
{
    let outputs = some_outputs(&heap.see_item(outputs.item()))?;
    let word = program.word(&heap.see_item(word.item()));
    let action = action_for(alloc, mnemonics, heap, outputs, word, arguments)?;
    registered(alloc, action, work)
}

fn run_parameters(word: &str) -> [Parameter<'_>; 5]
    ensures { map taken result ≡ run_parameters word.now }
{
    [
        Parameter::wanted_by_name("outputs"),
        Parameter::wanted_by_name(word),
        Parameter::named_only("inputs"),
        Parameter::named_only("arguments"),
        Parameter::named_only("mnemonic"),
    ]
}

/// The outputs of an argument: the items of a sequence, or `type`; `arity`, where there are none.
fn some_outputs<'b, 'a>(value: &Seen<'b, 'a>) -> Result<Group<'b, 'a>, Broken>
    ensures { MatchResult result
        (λ g. some_outputs (sequence_in (seen value.now)) ≡ Ok (group_items g))
        (λ e. FaultOr (some_outputs (sequence_in (seen value.now))) e) }
{
    match sequence_of(value) {
        Some(outputs) => if_some(outputs),
        None => Err(Broken::Kind(Kind::Wrong)),
    }
}

/// Items, or `arity` where there are none.
#[tactic(auto, using(crate::proofs::Outputs::some_of, crate::proofs::Outputs::none_of))]
fn if_some<'b, 'a>(items: Group<'b, 'a>) -> Result<Group<'b, 'a>, Broken>
    ensures { MatchResult result
        (λ g. some_outputs (Some (group_items items.entry)) ≡ Ok (group_items g))
        (λ e. FaultOr (some_outputs (Some (group_items items.entry))) e) }
{
    if items.len() == 0 {
        return Err(Broken::Kind(Kind::Arity));
    }
    Ok(items)
}

/// The action of outputs, of a word, and of what else a call is given, or `type`.
fn action_for<'b>(
    alloc: Global,
    mnemonics: &Mnemonics,
    heap: &'b Heap,
    outputs: Group<'b, '_>,
    word: Option<&Text>,
    arguments: &Arguments<'_, '_>,
) -> Result<Action, Broken>
    ensures { Gives (action_of heap.now (group_items outputs.entry) (option_copied word.entry)
        (got_at 2 (codes "inputs") (given arguments.now))
        (got_at 3 (codes "arguments") (given arguments.now))
        (got_at 4 (codes "mnemonic") (given arguments.now))) result }
{
    let inputs = got(arguments, 2, "inputs");
    let strings = got(arguments, 3, "arguments");
    let mnemonic = got(arguments, 4, "mnemonic");
    action_of(
        alloc, mnemonics, heap, outputs, word, inputs, strings, mnemonic,
    )
}

/// The action of these parts, or `type`.
fn action_of<'b>(
    alloc: Global,
    mnemonics: &Mnemonics,
    heap: &'b Heap,
    outputs: Group<'b, '_>,
    word: Option<&Text>,
    inputs: Option<&Operand<'_>>,
    arguments: Option<&Operand<'_>>,
    mnemonic: Option<&Operand<'_>>,
) -> Result<Action, Broken>
    ensures { Gives (action_of heap.now (group_items outputs.entry) (option_copied word.entry)
        (option_copied inputs.entry) (option_copied arguments.entry)
        (option_copied mnemonic.entry)) result }
{
    let outputs = files(alloc, heap, outputs)?;
    let Some(word) = word else {
        return Err(Broken::Kind(Kind::Wrong));
    };
    let inputs = inputs_in(alloc, heap, inputs)?;
    let words = words_in(alloc, heap, word, arguments)?;
    let mnemonic = mnemonic_in(mnemonics, heap, mnemonic)?;
    Ok(Action {
        mnemonic,
        outputs,
        inputs,
        words,
        content: None,
    })
}
