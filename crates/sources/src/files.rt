//! The files of a workspace, in the order of their paths.
ghost use Rattle.std.specs.Prelude.{◌≡◌, ◌++◌, false, IfNone, IfOk, OnOk, length, position};
ghost use Rattle.std.specs.Prelude.{bytes_eq};
ghost use Rattle.std.specs.List.Sorted.{IsPermutation};
ghost use Rattle.workspace.specs.Files.{file_pairs};
ghost use Rattle.workspace.specs.Workspaces.{paths_of};
ghost use Rattle.load_graph.specs.Paths.{ArePaths, listed};

use plain::Text;
use std::alloc::{AllocError, Global};
use std::marker::Model;
use workspace::{File, Workspace, is_module};

/// A file's path, and its text.
pub type PathAndText = (Text, Text);

/// The files of a workspace in ascending order of their paths. The place of a file, from 0, is its
/// number.
pub struct Files {
    files: Vec<PathAndText>,
    paths: Vec<Text>,
    module_numbers: Vec<usize>,
}

impl Drop for Files {
    fn drop(self) {
        let Files {
            files: _,
            paths: _,
            module_numbers: _,
        } = self;
    }
}

impl Model for Files {
    ghost use Rattle.std.specs.Prelude.{List};
    ghost use Rattle.workspace.specs.Workspaces.{Pair};
    ghost use Rattle.sources.specs.Listed.{AreListed};

    ghost Value = { List Pair };

    ghost view = { λ f. f.files.items };

    ghost invariant = { λ f. AreListed f.files.items f.paths.items };
}

/// Puts the paths and texts of files behind the others.
fn add_files(all: &mut Vec<PathAndText>, files: &[File]) -> Result<(), AllocError>
    ensures { OnOk result (all.new.items ≡ all.old.items ++ file_pairs files.now) }
{
    for file in files {
        all.push((file.path.share()?, file.text.share()?))?;
    }
    Ok(())
}

/// The paths of files.
fn paths_of(alloc: Global, files: &[PathAndText]) -> Result<Vec<Text>, AllocError>
    ensures { IfOk result (λ v. v.items ≡ paths_of files.now) }
{
    let mut paths = Vec::with_capacity(alloc, files.len())?;
    for file in files {
        paths.push(file.0.share()?)?;
    }
    Ok(paths)
}

/// For each path, how many modules stand before it: of a module its number among them. Modules are
/// looked for there first, and nothing is asked of these numbers.
fn module_numbers(alloc: Global, paths: &[Text]) -> Result<Vec<usize>, AllocError> {
    let mut numbers = Vec::with_capacity(alloc, paths.len())?;
    let mut next: usize = 0;
    for path in paths {
        numbers.push(next)?;
        if is_module(path.as_str()) {
            let Some(more) = next.checked_add(1) else {
                return Err(AllocError);
            };
            next = more;
        }
    }
    Ok(numbers)
}

impl Files {
    /// The files of a workspace.
    ///
    /// # Errors
    ///
    /// `AllocError` where memory was refused.
    pub fn of(alloc: Global, workspace: &Workspace) -> Result<Files, AllocError>
        ensures all { IfOk result (IsPermutation workspace.now) }
        ensures ascending { IfOk result (λ f. ArePaths (paths_of f)) }
    {
        let mut files = Vec::with_capacity(alloc, workspace.count())?;
        add_files(&mut files, workspace.files())?;
        files.sort_unstable();
        let paths = paths_of(alloc, &files)?;
        let module_numbers = module_numbers(alloc, &paths)?;
        Ok(Files {
            files,
            paths,
            module_numbers,
        })
    }

    /// All of them, in order.
    pub fn as_slice(&self) -> &[PathAndText]
        ensures { result.now ≡ self.now }
    {
        &self.files
    }

    /// Their paths, in order.
    pub fn paths(&self) -> &[Text]
        ensures value { result.now ≡ paths_of self.now }
        ensures ascending { ArePaths (paths_of self.now) }
    {
        &self.paths
    }

    /// For each of them, how many modules stand before it: where its module is looked for first.
    pub fn module_numbers(&self) -> &[usize] {
        &self.module_numbers
    }

    /// How many there are.
    pub fn len(&self) -> usize
        ensures { result ≡ length self.now }
    {
        self.files.len()
    }

    /// The number of the file at a path, if there is one.
    pub fn number(&self, path: &Text) -> Option<usize>
        ensures number { result ≡ position (bytes_eq path.now) (paths_of self.now) }
        ensures absent { IfNone result (listed (paths_of self.now) path.now ≡ false) }
    {
        match self.paths.binary_search(path) {
            Ok(number) => Some(number),
            Err(_) => None,
        }
    }
}
