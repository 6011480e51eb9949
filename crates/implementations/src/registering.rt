//! Actions that are registered, and `ctx.actions.write`.
ghost use Rattle.std.specs.Prelude.{◌≡◌, Ok, Err, Some, None, MatchResult, IfOk, map};
ghost use Rattle.std.specs.List.{list_all};
ghost use Rattle.ticks.specs.Ticking.{FaultOr};
ghost use Rattle.operations.specs.Arguments.{given};
ghost use Rattle.calls.specs.Parameters.{taken};
ghost use Rattle.contexts.specs.Works.{is_among, repeats};
ghost use Rattle.contexts.specs.Actions.{registered, write, written, write_parameters};
ghost use Rattle.contexts.specs.Actions.{file_write, file_in};
ghost use Rattle.operations.specs.Reading.{string_in};
ghost use Rattle.values.specs.Shape.{shape};

use crate::mnemonics::Mnemonics;
use crate::parts::file_of;
use actions::{Action, Files, Inputs, Words};
use calls::{Parameter, check_arguments, got};
use contexts::{DeclaredFiles, Work};
use depsets::FileRef;
use heap::Heap;
use operands::Operand;
use operations::Arguments;
use plain::{Shared, Text};
use state::text_of;
use std::alloc::{AllocError, Global};
use values::{Broken, Kind, Leaf, Value};

/// Registers an action.
///
/// # Errors
///
/// `place`, where an output isn't declared; then `key`, where one stands there twice.
pub(crate) fn registered(alloc: Global, action: Action, work: &mut Work) -> Result<Value, Broken>
    ensures { MatchResult result (λ v. registered work.old action ≡ Ok (v, work.new))
        (λ e. FaultOr (registered work.old action) e) }
{
    if !are_declared(action.outputs.as_slice(), &work.files) {
        return Err(Broken::Kind(Kind::Place));
    }
    if repeats(alloc, action.outputs.as_slice())? {
        return Err(Broken::Kind(Kind::Key));
    }
    if work.actions.push(action).is_err() {
        return Err(Broken::NoMemory);
    }
    Ok(Value::Leaf(Leaf::None))
}

/// Whether each of the Files is declared.
fn are_declared(files: &[Shared<FileRef>], declared: &DeclaredFiles) -> bool
    ensures { result ≡ list_all (λ f. is_among f declared.now) files.now }
{
    for file in files {
        if !declared.has(file) {
            return false;
        }
    }
    true
}

/// Whether a File stands there twice. They are found by hash, so many take no longer each than few.
#[tactic(auto, using(crate::proofs::Outputs::few_repeat_not))]
fn repeats(alloc: Global, files: &[Shared<FileRef>]) -> Result<bool, AllocError>
    ensures { IfOk result (λ b. b ≡ repeats files.now) }
{
    if files.len() < 2 {
        return Ok(false);
    }
    let mut seen = DeclaredFiles::new(alloc);
    for file in files {
        if seen.has(file) {
            return Ok(true);
        }
        seen.push(file.share()?)?;
    }
    Ok(false)
}

/// `ctx.actions.write(output, content)`.
///
/// # Errors
///
/// `arity`; `type`, where the output is no File or the content no string; then those of
/// [`registered`].
pub(crate) fn write(
    alloc: Global,
    mnemonics: &Mnemonics,
    heap: &Heap,
    arguments: &Arguments<'_, '_>,
    work: &mut Work,
) -> Result<Value, Broken>
    ensures { MatchResult result
        (λ v. write heap.now (given arguments.now) work.old ≡ Ok (v, work.new))
        (λ e. FaultOr (write heap.now (given arguments.now) work.old) e) }
{
    let parameters = write_parameters();
    if let Err(kind) = check_arguments(&parameters, arguments) {
        return Err(Broken::Kind(kind));
    }
    match (got(arguments, 0, "output"), got(arguments, 1, "content")) {
        (Some(output), Some(content)) => written(alloc, mnemonics, heap, output, content, work),
        _ => Err(Broken::Kind(Kind::Arity)),
    }
}

fn write_parameters() -> [Parameter<'static>; 2]
    ensures { map taken result ≡ write_parameters }
{
    [Parameter::wanted("output"), Parameter::wanted("content")]
}

/// The action that writes a content to an output.
fn written(
    alloc: Global,
    mnemonics: &Mnemonics,
    heap: &Heap,
    output: &Operand<'_>,
    content: &Operand<'_>,
    work: &mut Work,
) -> Result<Value, Broken>
    ensures { MatchResult result
        (λ v. written work.old (file_in (shape heap.now output.now))
        (string_in (shape heap.now content.now)) ≡ Ok (v, work.new))
        (λ e. FaultOr (written work.old (file_in (shape heap.now output.now))
        (string_in (shape heap.now content.now))) e) }
{
    let output = heap.see_item(output.item());
    let content = heap.see_item(content.item());
    match (file_of(&output), text_of(&content)) {
        (Some(file), Some(text)) => {
            let action = file_write(alloc, mnemonics, file, text)?;
            registered(alloc, action, work)
        }
        _ => Err(Broken::Kind(Kind::Wrong)),
    }
}

fn file_write(
    alloc: Global,
    mnemonics: &Mnemonics,
    file: &Shared<FileRef>,
    content: &Text,
) -> Result<Action, AllocError>
    ensures { IfOk result (λ a. a ≡ file_write file.now content.now) }
{
    let mut outputs = Files::with_capacity(alloc, 1)?;
    outputs.push(file.share()?)?;
    Ok(Action {
        mnemonic: mnemonics.of_write()?,
        outputs,
        inputs: Inputs::Files(Files::new(alloc)),
        words: Words::new(alloc),
        content: Some(content.share()?),
    })
}
