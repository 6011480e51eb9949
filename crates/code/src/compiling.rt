//! From the tree of a file to its code.

ghost use Rattle.std.specs.Prelude.{◌≡◌, [], ◌++◌, List, IfOk, OnOk, map, slice_get, unwrap_or};
ghost use Rattle.meaning.specs.Functions as functions;
ghost use Rattle.meaning.specs.StatementCode.{file_code, function_code};
ghost use Rattle.program_tree.specs.ParsedView.{program_of};
ghost use Rattle.program_tree.specs.ProgramView as view;

use crate::code::{Code, FunctionCode};
use crate::emitter::Emitter;
use crate::instruction::Instruction;
use crate::steps::emit_steps;
use indexmap::IndexSet;
use lexer::NoMemory;
use plain::Text;
use program_tree::{Parsed, Statement, Step};
use std::alloc::{AllocError, Global};

/// The same texts: a count more for each.
fn shared(alloc: Global, names: &[Text]) -> Result<Vec<Text>, AllocError>
    ensures { IfOk result (λ v. v.items ≡ names.now) }
{
    let mut all = Vec::with_capacity(alloc, names.len())?;
    for name in names {
        all.push(name.share()?)?;
    }
    Ok(all)
}

/// A name of the top level, by its number.
fn global_name(alloc: Global, globals: &IndexSet<Text>, number: usize) -> Result<Text, AllocError>
    ensures { IfOk result (λ name. name ≡ unwrap_or (slice_get globals.now.keys number) []) }
{
    match globals.get_index(number) {
        Some(name) => name.share(),
        None => Text::new(alloc, ""),
    }
}

/// The code of a function. A body that comes to its end gives None back.
fn compile_function(
    alloc: Global,
    name: Text,
    line: Option<usize>,
    params: Vec<Text>,
    slots: usize,
    steps: &[Step],
) -> Result<FunctionCode, AllocError>
    ensures { IfOk result (λ f. f ≡ function_code (record {
      name = name;
      line = line;
      params = params.items;
      slots = slots;
      body = view.steps steps.now;
    })) }
{
    let mut code = Emitter::new(alloc);
    code.put(0, Instruction::GiveBack)?;
    code.put(0, Instruction::PushNone)?;
    emit_steps(alloc, &mut code, steps)?;
    Ok(FunctionCode {
        name,
        line,
        params,
        slots,
        lines: code.into_lines(),
    })
}

/// The code of the function that a step of the top level defines, if it is a `def`, behind those
/// before it.
fn add_function(
    alloc: Global,
    globals: &IndexSet<Text>,
    all: &mut Vec<FunctionCode>,
    line: usize,
    statement: &Statement,
) -> Result<(), AllocError>
    ensures { (behind : List functions.Function)
        → OnOk result (all.new.items ++ map function_code behind
        ≡ all.old.items ++ map function_code (functions.before globals.now.keys line
        (view.statement statement.now) behind)) }
{
    match statement {
        Statement::Define(function) => {
            let name = global_name(alloc, globals, function.binds)?;
            let params = shared(alloc, function.params.as_slice())?;
            let steps = function.steps.as_slice();
            let code = compile_function(alloc, name, Some(line), params, function.slots, steps)?;
            all.push(code)?;
            Ok(())
        }
        Statement::Load(_, _) | Statement::If(_, _) | Statement::For(_, _, _) => Ok(()),
        Statement::Assign(_, _) | Statement::AssignAt(_, _, _) | Statement::Add(_, _) => Ok(()),
        Statement::AddAt(_, _, _) | Statement::Evaluate(_) | Statement::Pass => Ok(()),
        Statement::Break | Statement::Continue | Statement::Return(_) => Ok(()),
    }
}

/// The codes of a file's functions, by number.
fn functions(alloc: Global, parsed: &Parsed) -> Result<Vec<FunctionCode>, AllocError>
    ensures { IfOk result (λ all. all.items ≡ file_code (program_of parsed.now)) }
{
    let mut all = Vec::new(alloc);
    let steps = parsed.steps.as_slice();
    let (name, params) = (Text::new(alloc, "")?, Vec::new(alloc));
    all.push(compile_function(alloc, name, None, params, parsed.slots, steps)?)?;
    for step in steps {
        add_function(alloc, &parsed.globals, &mut all, step.line, &step.statement)?;
    }
    Ok(all)
}

/// Compiles a file: its code is the one that the definitions give for it, instruction by
/// instruction. It takes time in proportion to the tree. Its texts are those of the tree, which it
/// names once more and doesn't copy.
///
/// # Errors
///
/// [`NoMemory`] where memory was refused, and for no other reason.
pub fn compile(alloc: Global, parsed: &Parsed) -> Result<Code, NoMemory>
    ensures { IfOk result (λ code. code ≡ file_code (program_of parsed.now)) }
{
    let functions = functions(alloc, parsed)?;
    Ok(Code { functions })
}
