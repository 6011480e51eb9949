//! Reading a file: five passes over its text, each over the whole of it.

ghost use Rattle.std.specs.Prelude.{◌≡◌, IfOk, Ok, Err};
ghost use Rattle.grammar.specs.BareLines.{bare_lines};
ghost use Rattle.grammar.specs.Blocks.{Block};
ghost use Rattle.file_syntax.specs.Files.{IsFile, syntax};
ghost use Rattle.file_syntax.specs.FirstFault.{IsFault};
ghost use Rattle.file_syntax.specs.IsProgram.{IsProgram};
ghost use Rattle.program_tree.specs.ParsedView.{program_of};
ghost use Rattle.file_syntax.specs.ProgramDepth.{IsShallow};
ghost use Rattle.program_tree.specs.ProgramView as view;
ghost use Rattle.program_tree.specs.Resolved.{program, resolved};

use crate::steps::{Stopped, number_functions, resolve_file};
use crate::top::{count_loaded, file_scope};
use lexer::{FaultKind, FileKind, ParseStop, SyntaxFault, logical_lines};
use program_tree::{Parsed, Step};
use scopes::{Scope, steps_slots};
use statements::read_file;
use std::alloc::Global;

/// A file of these statements, in the scope of its top level, of whose names so many are loaded.
fn finished(scope: Scope<'_>, loaded: usize, mut steps: Vec<Step>) -> Parsed
    ensures { program_of result ≡ program scope.entry.globals loaded (view.steps steps.items) }
{
    let slots = steps_slots(steps.as_slice());
    number_functions(&mut steps);
    Parsed {
        globals: scope.into_globals(),
        loaded,
        slots,
        steps,
    }
}

/// The same as [`parse`].
fn read(alloc: Global, text: &str, kind: FileKind) -> Result<Parsed, ParseStop>
    ensures tree { IfOk result (λ p. (tree : Block) × (syntax text.now kind ≡ Ok tree)
        × (program_of p ≡ resolved (bare_lines tree))) }
    ensures fault { (f : SyntaxFault) → result ≡ Err (ParseStop.Fault f)
        → syntax text.now kind ≡ Err f }
{
    let read = logical_lines(alloc, text)?;
    let lines = read_file(alloc, read, kind)?;
    let Ok(mut scope) = file_scope(alloc, lines.as_slice()) else {
        return Err(ParseStop::NoMemory);
    };
    let Ok(loaded) = count_loaded(alloc, lines.as_slice()) else {
        return Err(ParseStop::NoMemory);
    };
    match resolve_file(alloc, &mut scope, lines) {
        Ok(steps) => Ok(finished(scope, loaded, steps)),
        Err(Stopped::At(line)) => Err(ParseStop::Fault(SyntaxFault {
            line,
            kind: FaultKind::Scope,
        })),
        Err(Stopped::NoMemory) => Err(ParseStop::NoMemory),
    }
}

/// Reads a file: its characters, its tokens, its brackets and columns, its statements, and then its
/// scopes. The grammar is that of the Starlark specification in this project's profile. What it
/// gives is shallow, however long the text is, and each statement and what each name stands for is
/// in its place.
///
/// # Errors
///
/// [`ParseStop::Fault`] where the text has no tree of this kind: the first fault of the first of
/// the five passes that finds one, with its line. [`ParseStop::NoMemory`] may come in place of any
/// answer, where memory was refused.
pub fn parse(alloc: Global, text: &str, kind: FileKind) -> Result<Parsed, ParseStop>
    ensures file { IfOk result (λ p. (tree : Block) × IsFile text.now kind tree
        × (program_of p ≡ resolved (bare_lines tree))) }
    ensures tree { IfOk result (λ p. (tree : Block) × (syntax text.now kind ≡ Ok tree)
        × (program_of p ≡ resolved (bare_lines tree))) }
    ensures shallow { IfOk result (λ p. IsShallow (program_of p)) }
    ensures fits { IfOk result (λ p. IsProgram (program_of p)) }
    ensures first { (f : SyntaxFault) → result ≡ Err (ParseStop.Fault f)
        → IsFault text.now kind f }
    ensures fault { (f : SyntaxFault) → result ≡ Err (ParseStop.Fault f)
        → syntax text.now kind ≡ Err f }
{
    read(alloc, text, kind)
}
