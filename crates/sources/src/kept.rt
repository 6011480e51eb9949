//! What is kept of a file, and its code.
ghost use Rattle.std.specs.Prelude.{◌≡◌, Ok, Err, IfOk, length};
ghost use Rattle.meaning.specs.Functions.{functions};
ghost use Rattle.meaning.specs.StatementCode.{file_code};
ghost use Rattle.program_tree.specs.ParsedView.{program_of};
ghost use Rattle.evaluation.specs.Runs.{no_program};
ghost use Rattle.evaluation.specs.Workspaces.{is_starlark, kind_of, parsed, code_of_parsed};
ghost use Rattle.sources.specs.Kept.{kept_as};

use crate::loads::loads_in;
use code::{Code, compile};
use evaluation::TopNames;
use indexmap::IndexSet;
use lexer::{FaultKind, FileKind, ParseStop, SyntaxFault};
use loading::LoadStatement;
use plain::{Shared, Text};
use std::alloc::{AllocError, Global};
use std::marker::Model;
use syntax::{Parsed, parse};
use targets::Sequence;
use workspace::{is_build_file, is_module};

/// The load statements of a file, or the kind and the line of its syntax fault.
pub type Loads = Result<Sequence<LoadStatement>, (FaultKind, u64)>;

/// What is kept of a file.
pub struct Kept {
    /// The names of its top level, by number.
    pub names: Shared<TopNames>,
    /// How many functions it has, with its top level.
    pub functions: usize,
    /// Its loads, or its syntax fault.
    pub loads: Loads,
}

impl Drop for Kept {
    fn drop(self) {
        let Kept {
            names: _,
            functions: _,
            loads: _,
        } = self;
    }
}

impl Model for Kept {
    ghost use Rattle.sources.specs.Kept.{KeptView};

    ghost Value = { KeptView };

    ghost view = { λ k. record { names = k.names; functions = k.functions; loads = k.loads } };
}

/// What is kept of a file, and its code.
#[derive(Drop)]
pub struct FileDone {
    /// What is kept of it.
    pub kept: Kept,
    /// Its code.
    pub code: Code,
}

/// Whether the file at a path is written in Starlark.
fn is_starlark(path: &str) -> bool
    ensures { result ≡ is_starlark path.now }
{
    is_build_file(path) || is_module(path)
}

/// The kind of the file at a path.
fn kind_of(path: &str) -> FileKind
    ensures { result ≡ kind_of path.now }
{
    if is_module(path) {
        FileKind::Module
    } else {
        FileKind::Build
    }
}

/// The tree of a file without statements.
fn no_program(alloc: Global) -> Parsed
    ensures { program_of result ≡ no_program }
{
    Parsed {
        globals: IndexSet::new(alloc),
        loaded: 0,
        slots: 0,
        steps: Vec::new(alloc),
    }
}

/// What is kept of a file of this tree, which is let go, with these loads.
fn compiled(alloc: Global, parsed: Parsed, loads: Loads) -> Result<FileDone, AllocError>
    ensures names { IfOk result (λ d. d.kept.names ≡ (program_of parsed).globals) }
    ensures functions { IfOk result
        (λ d. d.kept.functions ≡ length (functions (program_of parsed))) }
    ensures loads { IfOk result (λ d. d.kept.loads ≡ loads) }
    ensures code { IfOk result (λ d. d.code ≡ file_code (program_of parsed)) }
{
    let Ok(code) = compile(alloc, &parsed) else {
        return Err(AllocError);
    };
    let Parsed { globals, .. } = parsed;
    let kept = Kept {
        names: Shared::new(alloc, TopNames::of(globals))?,
        functions: code.functions().len(),
        loads,
    };
    Ok(FileDone { kept, code })
}

/// What is kept of the file at a path that has a tree.
fn whole(alloc: Global, path: &Text, parsed: Parsed) -> Result<FileDone, AllocError>
    ensures kept { IfOk result (λ d. d.kept ≡ kept_as path.now (Ok (program_of parsed))) }
    ensures code { IfOk result (λ d. d.code ≡ file_code (program_of parsed)) }
{
    let loads = loads_in(alloc, path, &parsed.steps)?;
    compiled(alloc, parsed, Ok(loads))
}

/// What is kept of a file that has a syntax fault.
fn faulty(alloc: Global, path: &Text, fault: SyntaxFault) -> Result<FileDone, AllocError>
    ensures kept { IfOk result (λ d. d.kept ≡ kept_as path.now (Err fault)) }
    ensures code { IfOk result (λ d. d.code ≡ file_code no_program) }
{
    // Only the contract speaks of the path.
    let _path = path;
    compiled(
        alloc,
        no_program(alloc),
        Err((fault.kind, fault.line as u64)),
    )
}

/// Reads and compiles the file of a path and a text. What isn't Starlark isn't read.
///
/// # Errors
///
/// `AllocError` where memory was refused. A syntax fault is no error: it is kept.
pub fn read_file(alloc: Global, path: &Text, text: &str) -> Result<FileDone, AllocError>
    ensures kept { IfOk result (λ d. d.kept ≡ kept_as path.now (parsed path.now text.now)) }
    ensures code { IfOk result
        (λ d. d.code ≡ file_code (code_of_parsed (parsed path.now text.now))) }
{
    if !is_starlark(path.as_str()) {
        return whole(alloc, path, no_program(alloc));
    }
    match parse(alloc, text, kind_of(path.as_str())) {
        Ok(parsed) => whole(alloc, path, parsed),
        Err(ParseStop::Fault(fault)) => faulty(alloc, path, fault),
        Err(ParseStop::NoMemory) => Err(AllocError),
    }
}
