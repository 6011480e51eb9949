//! Small workspaces, as a table of their files and the faults that are told.
use crate::fake::{Fake, Names};
use load_graph::Paths;
use loading::{FileRead, LoadFaultKind, LoadStatement};
use modules::{FileFault, Modules, load_all};
use plain::Text;
use std::alloc::{AllocError, Global};
use std::fmt;
use std::test::Fail;
use workspace::{Workspace, WorkspaceBuilder, is_module};

/// Files, and behind a bar the faults. A file is its path and words: `LINE:TARGET:NAMES` is a load,
/// where `-` spells no path, `+NAME` binds a name, and `!LINE` is a syntax fault.
const ROWS: &str = "a/p.bzl +x; a/q.bzl 1:a/p.bzl:x +y|
a/p.bzl +x; a/q.bzl 1:a/p.bzl:x +y; a/r.bzl 1:a/q.bzl:y,x|a/r.bzl missing name at a/r.bzl:1;
a/p.bzl +x; a/r.bzl 1:a/p.bzl:_u 2:a/none.bzl:v|a/r.bzl private name at a/r.bzl:1;
a/p.bzl +x; a/r.bzl 1:a/p.bzl:n,_u|a/r.bzl missing name at a/r.bzl:1;
a/p.bzl +x; a/r.bzl 4:a/p.bzl:x 2:a/p.bzl:n 3:-:y|a/r.bzl missing name at a/r.bzl:2;
a/r.bzl 3:-:_x|a/r.bzl missing file at a/r.bzl:3;
a/r.bzl 1:a/r.bzl:x|a/r.bzl load cycle at a/r.bzl:1;
a/p.bzl 1:-:x 2:a/q.bzl:x; a/q.bzl 1:a/p.bzl:x; a/r.bzl 1:a/p.bzl:x|a/p.bzl load cycle at a/p.bzl:2;a/q.bzl load cycle at a/q.bzl:1;a/r.bzl loaded module failed at a/r.bzl:1;
a/p.bzl 1:a/s.txt:x; a/s.txt 1:a/p.bzl:y|a/p.bzl missing file at a/p.bzl:1;
a/p.bzl !7; a/q.bzl 3:a/p.bzl:x; b/r.bzl 2:a/q.bzl:_x|a/p.bzl syntax at a/p.bzl:7;a/q.bzl loaded module failed at a/q.bzl:3;b/r.bzl loaded module failed at b/r.bzl:2;";

/// What a fault is called in the table.
fn kind_text(kind: &LoadFaultKind<u8, u8>) -> &'static str {
    match kind {
        LoadFaultKind::Syntax(_) => "syntax",
        LoadFaultKind::LoadCycle => "load cycle",
        LoadFaultKind::MissingFile => "missing file",
        LoadFaultKind::LoadedModuleFailed => "loaded module failed",
        LoadFaultKind::PrivateName => "private name",
        LoadFaultKind::MissingName => "missing name",
        LoadFaultKind::Evaluation(_) => "evaluation",
        LoadFaultKind::Unexported => "unexported",
    }
}

/// The load that a word is.
fn load_of(alloc: Global, word: &str) -> Result<Option<LoadStatement>, AllocError> {
    let Some((line, rest)) = word.split_once(':') else {
        return Ok(None);
    };
    let Some((target, names)) = rest.split_once(':') else {
        return Ok(None);
    };
    let mut asked = Vec::new(alloc);
    for name in names.split(',') {
        asked.push(Text::new(alloc, name)?)?;
    }
    let target = if target == "-" {
        None
    } else {
        Some(Text::new(alloc, target)?)
    };
    let line = line.parse::<u64>().unwrap_or(0);
    Ok(Some(LoadStatement {
        line,
        target,
        asked,
    }))
}

/// The file that these words are.
fn file_of(alloc: Global, words: &str) -> Result<Result<FileRead<Names>, (u8, u64)>, AllocError> {
    let mut loads = Vec::new(alloc);
    let mut names = Vec::new(alloc);
    for word in words.split(' ') {
        if let Some(line) = word.strip_prefix('!') {
            return Ok(Err((1, line.parse::<u64>().unwrap_or(0))));
        }
        if let Some(name) = word.strip_prefix('+') {
            names.push(Text::new(alloc, name)?)?;
        } else if let Some(load) = load_of(alloc, word)? {
            loads.push(load)?;
        }
    }
    Ok(Ok(FileRead {
        loads,
        tree: Names { names },
    }))
}

/// The workspace of these files, in their order.
pub(crate) fn workspace_of(alloc: Global, files: &str) -> Result<Option<Workspace>, AllocError> {
    let mut builder = WorkspaceBuilder::new(alloc);
    for file in files.split(';') {
        let (path, _) = file.trim().split_once(' ').unwrap_or((file, ""));
        if builder.add(alloc, path, "").is_err() {
            return Ok(None);
        }
    }
    Ok(builder.finish(alloc).ok())
}

/// The faults of modules, as the table writes them.
fn told(alloc: Global, faults: &[FileFault<u8, u8>]) -> Result<String, fmt::Error> {
    let mut text = String::new(alloc);
    for file in faults {
        let kind = kind_text(&file.fault.kind);
        let (path, at, line) = (
            file.path.as_str(),
            file.fault.path.as_str(),
            file.fault.line,
        );
        write!(text, "{path} {kind} at {at}:{line};")?;
    }
    Ok(text)
}

/// What these files are read as: those of the modules, in the order of their paths, as the table
/// has them.
pub(crate) fn fake_of(
    alloc: Global,
    workspace: &Workspace,
    files: &str,
) -> Result<Option<Fake>, AllocError> {
    let paths = Paths::of(alloc, workspace)?;
    let mut read = Vec::new(alloc);
    for file in files.split(';') {
        let (path, words) = file.trim().split_once(' ').unwrap_or((file, ""));
        if is_module(path) {
            read.push(file_of(alloc, words)?)?;
        }
    }
    let files = read;
    if files.len() != paths.as_slice().len() {
        return Ok(None);
    }
    Ok(Some(Fake { paths, files }))
}

/// How many of the paths are those of modules without a value.
fn failed(modules: &Modules<Names, u8, u8>, paths: &[Text]) -> usize {
    let mut failed: usize = 0;
    for path in paths {
        if modules.module(path).is_none() {
            failed = failed.saturating_add(1);
        }
    }
    failed
}

/// Whether modules have the faults that are wanted, and all others a value.
fn are_told(
    alloc: Global,
    modules: &Modules<Names, u8, u8>,
    paths: &[Text],
    want: &str,
) -> Result<bool, Fail> {
    let is_told = told(alloc, modules.faults())?.as_str() == want;
    Ok(is_told && failed(modules, paths) == modules.faults().len())
}

/// The same of a workspace.
fn are_loaded(alloc: Global, workspace: &Workspace, fake: &Fake, want: &str) -> Result<bool, Fail> {
    let modules: Modules<Names, u8, u8> = load_all(alloc, workspace, fake)?;
    are_told(alloc, &modules, fake.paths.as_slice(), want)
}

/// Whether the modules of a row have the faults that it tells, and all others a value.
fn is_so(alloc: Global, row: &str) -> Result<bool, Fail> {
    let Some((files, want)) = row.split_once('|') else {
        return Ok(false);
    };
    let Some(workspace) = workspace_of(alloc, files)? else {
        return Ok(false);
    };
    match fake_of(alloc, &workspace, files)? {
        Some(fake) => are_loaded(alloc, &workspace, &fake, want),
        None => Ok(false),
    }
}

#[test]
fn faults_are_the_first_that_apply(rt: HostRuntime) -> Result<(), Fail> {
    let alloc = rt.alloc();
    for row in ROWS.lines() {
        assert!(rt; is_so(alloc, row)?, "{row}");
    }
    Ok(())
}
