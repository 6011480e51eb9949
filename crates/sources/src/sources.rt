//! The files of a workspace, each read and compiled once.
ghost use Rattle.std.specs.Prelude.{◌≡◌, ◌<◌, IfOk, length, position, bytes_eq};
ghost use Rattle.std.specs.List.Sorted.{IsPermutation};
ghost use Rattle.workspace.specs.Workspaces.{paths_of};
ghost use Rattle.meaning.specs.Functions.{functions};
ghost use Rattle.meaning.specs.StatementCode.{code_of};
ghost use Rattle.load_graph.specs.Paths.{ArePaths};
ghost use Rattle.evaluation.specs.Runs.{program_at};
ghost use Rattle.evaluation.specs.Workspaces.{linked_files, read_file};
ghost use Rattle.call_stack.specs.LinkedView.{codes_of};
ghost use Rattle.sources.specs.Kept.{as_read};

use crate::files::Files;
use crate::kept::{Kept, Loads, read_file};
use crate::read_all::read_all;
use crate::shares::statements;
use call_stack::Linked;
use evaluation::TopNames;
use lexer::FaultKind;
use loading::FileRead;
use plain::{Shared, Text};
use std::alloc::{AllocError, Global};
use std::marker::Model;
use std::thread::Threads;
use workspace::Workspace;

/// The files of a workspace, in ascending order of their paths: what was read of each, and the
/// codes of all of them. The place of a file, from 0, is its number.
pub struct Sources {
    files: Files,
    kept: Vec<Kept>,
    linked: Linked,
}

impl Drop for Sources {
    fn drop(self) {
        let Sources {
            files: _,
            kept: _,
            linked: _,
        } = self;
    }
}

impl Model for Sources {
    ghost use Rattle.std.specs.Prelude.{List};
    ghost use Rattle.workspace.specs.Workspaces.{Pair};
    ghost use Rattle.call_stack.specs.LinkedView.{codes_of};
    ghost use Rattle.sources.specs.Kept.{AreRead};

    ghost Value = { List Pair };

    ghost view = { λ s. s.files };

    ghost invariant = { λ s. AreRead s.files s.kept.items (codes_of s.linked) };
}

/// A file as loading sees it, under its number.
fn as_read(
    alloc: Global,
    number: usize,
    loads: &Loads,
) -> Result<Result<FileRead<usize>, (FaultKind, u64)>, AllocError>
    ensures { IfOk result (λ r. r ≡ as_read number loads.now) }
{
    match loads {
        Ok(loads) => Ok(Ok(FileRead {
            loads: statements(alloc, loads.as_slice())?,
            tree: number,
        })),
        Err(fault) => Ok(Err(*fault)),
    }
}

impl Sources {
    /// The files of a workspace. Each is parsed and compiled once, by one of so many threads, which
    /// have ended when this returns, and its tree let go at once. `rt` is the permission to start
    /// threads.
    ///
    /// # Errors
    ///
    /// `AllocError` where memory was refused.
    pub fn of<R: Threads + Sync>(
        rt: &R,
        alloc: Global,
        workspace: &Workspace,
        threads: usize,
    ) -> Result<Sources, AllocError>
        ensures all { IfOk result (IsPermutation workspace.now) }
        ensures ascending { IfOk result (λ s. ArePaths (paths_of s)) }
    {
        let files = Files::of(alloc, workspace)?;
        let (kept, linked) = read_all(rt, alloc, files.as_slice(), threads)?;
        Ok(Sources {
            files,
            kept,
            linked,
        })
    }

    /// The paths of the files, in order.
    pub fn paths(&self) -> &[Text]
        ensures value { result.now ≡ paths_of self.now }
        ensures ascending { ArePaths (paths_of self.now) }
    {
        self.files.paths()
    }

    /// For each file, how many modules stand before it: where its module is looked for first.
    /// Nothing is promised of these numbers, since whoever looks there compares the paths.
    pub fn module_numbers(&self) -> &[usize] {
        self.files.module_numbers()
    }

    /// The number of the file at a path, if there is one.
    pub fn number(&self, path: &Text) -> Option<usize>
        ensures { result ≡ position (bytes_eq path.now) (paths_of self.now) }
    {
        self.files.number(path)
    }

    /// The codes of the files, by number. A file that has a syntax fault or isn't Starlark has that
    /// of an empty one.
    pub fn linked(&self) -> &Linked
        ensures { codes_of result.now ≡ code_of (linked_files self.now) }
    {
        &self.linked
    }

    /// The names of the top level of a file.
    pub fn names(&self, number: usize) -> &Shared<TopNames>
        requires file { number < length self.now }
        ensures { result.now ≡ (program_at (linked_files self.now) number).globals }
    {
        let kept = &self.kept[number];
        &kept.names
    }

    /// How many functions a file has, with its top level.
    pub fn functions(&self, number: usize) -> usize
        requires file { number < length self.now }
        ensures { result ≡ length (functions (program_at (linked_files self.now) number)) }
    {
        let kept = &self.kept[number];
        kept.functions
    }

    /// The file at a path, or the kind and the line of its syntax fault. A path without a file is
    /// read as an empty one.
    ///
    /// # Errors
    ///
    /// `AllocError` where memory was refused.
    pub fn read(
        &self,
        alloc: Global,
        path: &Text,
    ) -> Result<Result<FileRead<usize>, (FaultKind, u64)>, AllocError>
        ensures { IfOk result (λ r. r ≡ read_file self.now path.now) }
    {
        match self.files.number(path) {
            Some(number) => {
                let kept = &self.kept[number];
                as_read(alloc, number, &kept.loads)
            }
            None => {
                let kept = read_file(alloc, path, "")?.kept;
                as_read(alloc, self.files.len(), &kept.loads)
            }
        }
    }
}
