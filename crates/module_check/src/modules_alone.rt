//! The evaluation of one module that stands alone.

use anyhow::{Result, bail};
use arena::Arena;
use code::compile;
use evaluator::World;
use frames::Stop;
use heap::Heap;
use language::{NoFiles, NoPlace, Whole};
use leaf_texts::put_quoted;
use machine::{Linked, Start, execute};
use operands::Bindings;
use operations::{DefaultInfo, Defaults, State};
use plain::Text;
use printing::text;
use std::alloc::{AllocError, Global};
use syntax::{FileKind, ParseStop, Parsed, parse};
use values::{Broken, Depset, Fields, Items, Kind, Ticks};
use visits::freeze;

/// How many ticks a module may use.
const LIMIT: u64 = 1_000_000;

/// What a module comes to: the names of its globals with the texts of their values, and the ticks
/// that it used; or the line and the kind of its fault.
#[derive(Drop)]
pub enum Evaluated {
    Globals(Vec<(Text, String)>, u64),
    Fault(String),
}

/// Nothing bound, in so many slots.
fn unbound<'a>(alloc: Global, count: usize) -> Result<Fields<'a>, AllocError> {
    let mut fields = Fields::with_capacity(alloc, count)?;
    for _ in 0..count {
        fields.push(None)?;
    }
    Ok(fields)
}

/// No defaults, of so many functions.
fn no_defaults<'a>(alloc: Global, count: usize) -> Result<Defaults<'a>, AllocError> {
    let mut defaults = Defaults::new(alloc);
    for _ in 0..count {
        defaults.push(Items::new(alloc))?;
    }
    Ok(defaults)
}

/// The state before anything is evaluated.
fn state<'a>(
    alloc: Global,
    path: &str,
    names: usize,
    functions: usize,
) -> Result<State<'a>, AllocError> {
    Ok(State {
        heap: Heap::new(alloc),
        ticks: Ticks::new(LIMIT),
        owner: Text::new(alloc, path)?,
        depsets: 0,
        file: 0,
        globals: unbound(alloc, names)?,
        loaded: Bindings::unbound(alloc, names)?,
        defaults: no_defaults(alloc, functions)?,
    })
}

/// A fault of evaluation, at its line; that of `fail` with its text.
fn fault(alloc: Global, line: usize, kind: &Kind) -> Result<Evaluated> {
    let mut told = format!(in alloc; "{line} evaluation {}", kind.name())?;
    if let Kind::Fail(text) = kind {
        told.push_str(" ")?;
        put_quoted(&mut told, text.as_str())?;
    }
    Ok(Evaluated::Fault(told))
}

/// The texts of the globals, once they are frozen.
fn globals(alloc: Global, parsed: &Parsed, mut whole: Box<Whole<()>>) -> Result<Evaluated> {
    let mut texts = Vec::new(alloc);
    let state = &mut whole.state;
    for (name, value) in parsed.globals.iter().zip(state.globals.as_slice()) {
        if let Some(value) = value {
            match freeze(alloc, value.item(), &state.heap, &mut state.ticks) {
                Ok(frozen) => texts.push((name.share()?, text(alloc, &frozen)?))?,
                Err(Broken::Kind(kind)) => return fault(alloc, 0, &kind),
                Err(Broken::NoMemory) => bail!("no memory"),
            }
        }
    }
    Ok(Evaluated::Globals(texts, state.ticks.used()))
}

/// Runs the top level of a file that was read.
fn run(
    alloc: Global,
    default_info: &DefaultInfo,
    kept: &Arena<Depset>,
    path: &str,
    parsed: &Parsed,
) -> Result<Evaluated> {
    let Ok(code) = compile(alloc, parsed) else {
        bail!("no memory")
    };
    let functions = code.functions().len();
    let mut linked = Linked::new(alloc);
    linked.add(code)?;
    let world = World {
        alloc,
        linked: &NoFiles,
        place: &NoPlace,
        default_info,
        kept,
    };
    let state = state(alloc, path, parsed.globals.len(), functions)?;
    let mut whole = Box::new(alloc, Whole { state, work: () })?;
    match execute(&world, &linked, Start::TopLevel(0), &mut whole) {
        Ok(_) => globals(alloc, parsed, whole),
        Err(Stop::Fault(found)) => fault(alloc, found.line, &found.kind),
        Err(Stop::NoMemory) => bail!("no memory"),
    }
}

/// Reads a module and evaluates it.
pub fn evaluate(
    alloc: Global,
    default_info: &DefaultInfo,
    path: &str,
    text: &str,
) -> Result<Evaluated> {
    match parse(alloc, text, FileKind::Module) {
        Ok(parsed) => run(alloc, default_info, &Arena::new(), path, &parsed),
        Err(ParseStop::Fault(found)) => Ok(Evaluated::Fault(format!(in alloc;
            "{} syntax {}",
            found.line, found.kind
        )?)),
        Err(ParseStop::NoMemory) => bail!("no memory"),
    }
}
