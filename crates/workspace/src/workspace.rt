//! Workspaces: the files that are analysed.

ghost use Rattle.std.specs.Prelude.{◌≡◌, ◌∷◌, ◌++◌, [], true, false, length, IfOk, OnOk, OnErr};
ghost use Rattle.std.specs.Prelude.{Err};
ghost use Rattle.std.specs.List.{IsDistinct};
ghost use Rattle.std.specs.Str.{bytes_eq};
ghost use Rattle.workspace.specs.Files.{file_pairs};
ghost use Rattle.workspace.specs.Workspaces.{IsWorkspace, is_file, pairs_behind, paths_of};

use crate::paths::is_path;
use plain::Text;
use std::alloc::{AllocError, Global};
use std::collections::BTreeSet;
use std::marker::Model;

/// The most bytes of a file's text.
pub const TEXT_LIMIT: usize = 1_048_576;

/// A file of a workspace.
#[derive(Drop)]
pub struct File {
    /// Its path.
    pub path: Text,
    /// Its text, which may have any bytes.
    pub text: Text,
}

/// A workspace: files with distinct legal paths, whose texts have at most [`TEXT_LIMIT`] bytes.
///
/// To a contract it is the list of its pairs of a path and a text.
#[derive(Drop)]
pub struct Workspace {
    files: Vec<File>,
}

impl Model for Workspace {
    ghost use Rattle.std.specs.Prelude.{List};
    ghost use Rattle.workspace.specs.Files.{file_pairs};
    ghost use Rattle.workspace.specs.Workspaces.{IsWorkspace, Pair};

    ghost Value = { List Pair };

    ghost view = { λ w. file_pairs w.files.items };

    ghost invariant = { λ w. IsWorkspace (file_pairs w.files.items) };
}

/// Files on the way to a workspace, taken one after another.
///
/// Each is a legal one. Whether a path stands twice is found at the end, over all of them. To a
/// contract it is the list of the pairs that were taken.
#[derive(Drop)]
pub struct WorkspaceBuilder {
    files: Vec<File>,
}

impl Model for WorkspaceBuilder {
    ghost use Rattle.std.specs.Prelude.{◌≡◌, true, List};
    ghost use Rattle.std.specs.List.{list_all};
    ghost use Rattle.workspace.specs.Files.{file_pairs};
    ghost use Rattle.workspace.specs.Workspaces.{Pair, is_file};

    ghost Value = { List Pair };

    ghost view = { λ b. file_pairs b.files.items };

    ghost invariant = { λ b. list_all is_file (file_pairs b.files.items) ≡ true };
}

/// Why pairs gave no workspace.
#[derive(Clone, Copy, Debug, PartialEq, Eq)]
pub enum WorkspaceRefused {
    /// The pairs are no workspace: a path is illegal or stands twice, or a text is too long.
    Illegal,
    /// Memory for the workspace was refused.
    NoMemory,
}

/// Whether a path and a text make a file.
fn is_file(path: &str, text: &str) -> bool
    ensures { result ≡ is_file (path.now, text.now) }
{
    is_path(path) && text.len() <= TEXT_LIMIT
}

/// A file of copies of a path and a text.
fn copied(alloc: Global, path: &str, text: &str) -> Result<File, AllocError>
    ensures path { IfOk result (λ f. f.path ≡ path.now) }
    ensures text { IfOk result (λ f. f.text ≡ text.now) }
{
    Ok(File {
        path: Text::new(alloc, path)?,
        text: Text::new(alloc, text)?,
    })
}

/// Whether no path stands twice.
///
/// The paths are put in order: who chooses them can't make this slow, as with a hash whose seed is
/// known.
fn are_distinct(alloc: Global, files: &[File]) -> Result<bool, AllocError>
    ensures distinct { IfOk result
        (λ d. d ≡ true → IsDistinct bytes_eq (paths_of (file_pairs files.now))) }
    ensures twice { IfOk result
        (λ d. d ≡ false → IsDistinct bytes_eq (paths_of (file_pairs files.now)) → ⊥) }
{
    let mut paths = BTreeSet::new(alloc);
    for file in files {
        let is_new = paths.insert(file.path.as_str())?;
        if !is_new {
            return Ok(false);
        }
    }
    Ok(true)
}

impl WorkspaceBuilder {
    /// No file yet.
    pub fn new(alloc: Global) -> WorkspaceBuilder
        ensures { result ≡ [] }
    {
        WorkspaceBuilder {
            files: Vec::new(alloc),
        }
    }

    /// Takes one file more, and copies its path and its text.
    ///
    /// # Errors
    ///
    /// `Illegal` where the path is illegal or the text too long, and `NoMemory` where memory was
    /// refused. Then no file was taken.
    pub fn add(&mut self, alloc: Global, path: &str, text: &str) -> Result<(), WorkspaceRefused>
        ensures ok { OnOk result (self.new ≡ self.old ++ (path.now, text.now) ∷ []) }
        ensures legal { OnOk result (is_file (path.now, text.now) ≡ true) }
        ensures kept { OnErr result (self.new ≡ self.old) }
        ensures illegal { result ≡ Err WorkspaceRefused.Illegal
            → is_file (path.now, text.now) ≡ false }
    {
        if !is_file(path, text) {
            return Err(WorkspaceRefused::Illegal);
        }
        let file = match copied(alloc, path, text) {
            Ok(file) => file,
            Err(_) => return Err(WorkspaceRefused::NoMemory),
        };
        match self.files.push(file) {
            Ok(()) => Ok(()),
            Err(_) => Err(WorkspaceRefused::NoMemory),
        }
    }

    /// The workspace of the files that were taken, in their order.
    ///
    /// # Errors
    ///
    /// `Illegal` where a path stands twice, and `NoMemory` where memory was refused.
    pub fn finish(self, alloc: Global) -> Result<Workspace, WorkspaceRefused>
        ensures ok { IfOk result (λ w. w ≡ self) }
        ensures legal { IfOk result IsWorkspace }
        ensures illegal { result ≡ Err WorkspaceRefused.Illegal → IsWorkspace self → ⊥ }
    {
        match are_distinct(alloc, self.files.as_slice()) {
            Ok(true) => Ok(Workspace { files: self.files }),
            Ok(false) => Err(WorkspaceRefused::Illegal),
            Err(_) => Err(WorkspaceRefused::NoMemory),
        }
    }
}

impl Workspace {
    /// The workspace of these pairs of a path and a text, in their order.
    ///
    /// # Errors
    ///
    /// `Illegal` where a path is illegal or stands twice or a text is too long, and `NoMemory`
    /// where memory was refused.
    pub fn new(alloc: Global, pairs: &[(&str, &str)]) -> Result<Workspace, WorkspaceRefused>
        ensures ok { IfOk result (λ w. w ≡ pairs_behind pairs.now) }
        ensures legal { IfOk result IsWorkspace }
        ensures illegal { result ≡ Err WorkspaceRefused.Illegal
            → IsWorkspace (pairs_behind pairs.now) → ⊥ }
    {
        let mut files = WorkspaceBuilder::new(alloc);
        for &(path, text) in pairs {
            match files.add(alloc, path, text) {
                Ok(()) => {}
                Err(refused) => return Err(refused),
            }
        }
        files.finish(alloc)
    }

    /// How many files it has.
    pub fn count(&self) -> usize
        ensures count { result ≡ length self.now }
        ensures legal { IsWorkspace self.now }
    {
        self.files.len()
    }

    /// Its files, in the order of the pairs that it was made of.
    pub fn files(&self) -> &[File]
        ensures { file_pairs result.now ≡ self.now }
    {
        self.files.as_slice()
    }
}
