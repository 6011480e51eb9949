//! A chain and a cycle of many modules, on a thread with a small stack: nothing recurses by their
//! length.
use crate::fake::{Fake, Names};
use load_graph::Paths;
use loading::{FileRead, LoadStatement};
use modules::{Modules, load_all};
use plain::Text;
use std::alloc::{AllocError, Global};
use std::process::Abort;
use std::test::Fail;
use std::thread::{Builder, Threads};
use workspace::{Workspace, WorkspaceBuilder};

/// How many modules there are.
const COUNT: u64 = 10_000;

/// The stack on which they are loaded.
const STACK: usize = 256 * 1024;

/// The path of a module. Paths ascend with numbers.
fn path(alloc: Global, n: u64) -> Result<Text, AllocError> {
    let number = n.saturating_add(100_000);
    Text::from_string(format!(in alloc; "c/{number}.bzl")?)
}

/// A file that loads a module, if one is given, and binds nothing.
fn file(alloc: Global, loaded: Option<u64>) -> Result<FileRead<Names>, AllocError> {
    let mut loads = Vec::new(alloc);
    if let Some(n) = loaded {
        loads.push(LoadStatement {
            line: 1,
            target: Some(path(alloc, n)?),
            asked: Vec::new(alloc),
        })?;
    }
    Ok(FileRead {
        loads,
        tree: Names {
            names: Vec::new(alloc),
        },
    })
}

/// The workspace of all modules.
fn workspace(alloc: Global) -> Result<Option<Workspace>, AllocError> {
    let mut builder = WorkspaceBuilder::new(alloc);
    for n in 0..COUNT {
        if builder.add(alloc, path(alloc, n)?.as_str(), "").is_err() {
            return Ok(None);
        }
    }
    Ok(builder.finish(alloc).ok())
}

/// The module that a module loads: the next, and the last one `last`, if given.
fn loaded(n: u64, last: Option<u64>) -> Option<u64> {
    let next = n.saturating_add(1);
    if next < COUNT { Some(next) } else { last }
}

/// What all modules are read as.
fn files(
    alloc: Global,
    last: Option<u64>,
) -> Result<Vec<Result<FileRead<Names>, (u8, u64)>>, AllocError> {
    let mut files = Vec::new(alloc);
    for n in 0..COUNT {
        files.push(Ok(file(alloc, loaded(n, last))?))?;
    }
    Ok(files)
}

/// The evaluator of all modules.
fn fake(
    alloc: Global,
    workspace: &Workspace,
    last: Option<u64>,
) -> Result<Option<Fake>, AllocError> {
    let files = files(alloc, last)?;
    let paths = Paths::of(alloc, workspace)?;
    if files.len() != paths.as_slice().len() {
        return Ok(None);
    }
    Ok(Some(Fake { paths, files }))
}

/// How many faults the modules of a workspace have.
fn count(alloc: Global, workspace: &Workspace, fake: &Fake) -> Option<usize> {
    let modules: Result<Modules<Names, u8, u8>, AllocError> = load_all(alloc, workspace, fake);
    match modules {
        Ok(modules) => Some(modules.faults().len()),
        Err(_) => None,
    }
}

/// How many faults modules have, each of which loads the next, and the last one `last`, if given.
fn faults(alloc: Global, last: Option<u64>) -> Result<Option<usize>, AllocError> {
    let Some(workspace) = workspace(alloc)? else {
        return Ok(None);
    };
    match fake(alloc, &workspace, last)? {
        Some(fake) => Ok(count(alloc, &workspace, &fake)),
        None => Ok(None),
    }
}

/// The same, on a thread with a small stack.
fn expect<R: Abort + Threads>(
    rt: &R,
    alloc: Global,
    last: Option<u64>,
    want: usize,
) -> Result<(), Fail> {
    let loader = Builder::new().stack_size(STACK);
    let child = loader.spawn(rt, move || faults(alloc, last).ok().flatten())?;
    let found = child.join(rt);
    assert!(rt; found == Some(want), "{found:?}");
    Ok(())
}

#[test]
fn a_long_chain_is_loaded(rt: HostRuntime) -> Result<(), Fail> {
    expect(&rt, rt.alloc(), None, 0)
}

#[test]
fn each_of_a_long_cycle_is_told(rt: HostRuntime) -> Result<(), Fail> {
    expect(&rt, rt.alloc(), Some(0), 10_000)
}
