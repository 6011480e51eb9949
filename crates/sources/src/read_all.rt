//! All files of a workspace, read and compiled by several threads.
ghost use Rattle.std.specs.Prelude.{◌≡◌, ◌<◌, IfOk, length, map};
ghost use Rattle.meaning.specs.StatementCode.{code_of};
ghost use Rattle.evaluation.specs.Workspaces.{linked_files};
ghost use Rattle.call_stack.specs.LinkedView.{codes_of};
ghost use Rattle.sources.specs.Kept.{kept_of};
ghost use Rattle.sources.specs.Done.{AreDone, IsDoneAt};

use crate::files::PathAndText;
use crate::kept::{FileDone, Kept, read_file};
use call_stack::Linked;
use parallel::map_places;
use std::alloc::{AllocError, Global};
use std::thread::Threads;

/// Reads and compiles the file at a place.
fn read_at(alloc: Global, files: &[PathAndText], place: usize) -> Result<FileDone, AllocError>
    requires { place < length files.now }
    ensures { IfOk result (IsDoneAt files.now place) }
{
    let file = &files[place];
    read_file(alloc, &file.0, file.1.as_str())
}

/// Reads and compiles files, each in one of so many threads.
fn read_each<R: Threads + Sync>(
    rt: &R,
    alloc: Global,
    files: &[PathAndText],
    threads: usize,
) -> Result<Vec<FileDone>, AllocError>
    ensures { IfOk result (λ all. AreDone files.now all.items) }
{
    map_places(
        rt,
        alloc,
        files.len(),
        threads,
        &|place: usize| -> Result<FileDone, AllocError>
            requires { place < length files.now }
            ensures { IfOk result (IsDoneAt files.entry.now place) }
        { read_at(alloc, files, place) },
    )
}

/// What is kept of files that were read, and their codes, linked.
fn linked(
    alloc: Global,
    files: &[PathAndText],
    all: Vec<FileDone>,
) -> Result<(Vec<Kept>, Linked), AllocError>
    requires { AreDone files.now all.items }
    ensures kept { IfOk result (λ r. r.0.items ≡ map kept_of files.now) }
    ensures codes { IfOk result (λ r. codes_of r.1 ≡ code_of (linked_files files.now)) }
{
    let mut kept = Vec::with_capacity(alloc, files.len())?;
    let mut linked = Linked::new(alloc);
    for done in all {
        kept.push(done.kept)?;
        linked.add(done.code)?;
    }
    Ok((kept, linked))
}

/// Reads and compiles files, by so many threads at most.
pub(crate) fn read_all<R: Threads + Sync>(
    rt: &R,
    alloc: Global,
    files: &[PathAndText],
    threads: usize,
) -> Result<(Vec<Kept>, Linked), AllocError>
    ensures kept { IfOk result (λ r. r.0.items ≡ map kept_of files.now) }
    ensures codes { IfOk result (λ r. codes_of r.1 ≡ code_of (linked_files files.now)) }
{
    let all = read_each(rt, alloc, files, threads)?;
    linked(alloc, files, all)
}
