//! The modules of a workspace by path.
ghost use Rattle.std.specs.Prelude.{◌≡◌, ◌<◌, ◌++◌, ◌∷◌, [], false, None, Some, length, IfOk};
ghost use Rattle.std.specs.Prelude.{IfSome, OnOk, MatchOption, if◌then◌else◌};
ghost use Rattle.std.specs.List.Sorted.{IsPermutation};
ghost use Rattle.loading.specs.Loads.{module_path, path_at};
ghost use Rattle.workspace.specs.FileKinds.{is_module};
ghost use Rattle.workspace.specs.Files.{file_pairs};
ghost use Rattle.load_graph.specs.Paths.{ArePaths, IsAt, listed, module_paths};

use edges::NodeId;
use loading::LoadStatement;
use plain::Text;
use std::alloc::{AllocError, Global};
use std::marker::Model;
use workspace::{File, Workspace, is_module};

/// The paths of modules, each once and in ascending order of their bytes. The place of a path, from
/// 0, is its module's number.
#[derive(Drop)]
pub struct Paths {
    paths: Vec<Text>,
}

impl Model for Paths {
    ghost use Rattle.std.specs.Prelude.{ℕ, List};
    ghost use Rattle.load_graph.specs.Paths.{ArePaths};

    ghost Value = { List (List ℕ) };

    ghost view = { λ p. p.paths.items };

    ghost invariant = { λ p. ArePaths p.paths.items };
}

/// Puts the path of a file behind the others, if it is a module's.
fn add_module(paths: &mut Vec<Text>, path: &Text) -> Result<(), AllocError>
    ensures { let added = if is_module path.now then path.now ∷ [] else [] in
        OnOk result (paths.new.items ≡ paths.old.items ++ added) }
{
    if is_module(path.as_str()) {
        paths.push(path.share()?)?;
    }
    Ok(())
}

/// Puts the paths of the modules among these files behind the others.
fn add_modules(paths: &mut Vec<Text>, files: &[File]) -> Result<(), AllocError>
    ensures { let added = module_paths (file_pairs files.now) in
        OnOk result (paths.new.items ≡ paths.old.items ++ added) }
{
    for file in files {
        add_module(paths, &file.path)?;
    }
    Ok(())
}

impl Paths {
    /// The paths of a workspace's modules.
    ///
    /// # Errors
    ///
    /// `AllocError` where memory was refused.
    pub fn of(alloc: Global, workspace: &Workspace) -> Result<Paths, AllocError>
        ensures { IfOk result (IsPermutation (module_paths workspace.now)) }
    {
        let mut paths = Vec::with_capacity(alloc, workspace.count())?;
        add_modules(&mut paths, workspace.files())?;
        paths.sort_unstable();
        Ok(Paths { paths })
    }

    /// The paths, in order.
    pub fn as_slice(&self) -> &[Text]
        ensures value { result.now ≡ self.now }
        ensures paths { ArePaths self.now }
    {
        &self.paths
    }

    /// The number of the module at a path, if there is one.
    pub fn find(&self, path: &Text) -> Option<NodeId>
        ensures value { MatchOption result (listed self.now path.now ≡ false)
            (IsAt self.now path.now) }
        ensures paths { ArePaths self.now }
    {
        match self.paths.binary_search(path) {
            Ok(n) => Some(NodeId::of(n)),
            Err(_) => None,
        }
    }

    /// The same as `find`, where the path is likely to have this number: that one is looked at
    /// first, and where it is the path's, nothing is searched.
    pub fn find_near(&self, number: usize, path: &Text) -> Option<NodeId>
        ensures value { MatchOption result (listed self.now path.now ≡ false)
            (IsAt self.now path.now) }
        ensures paths { ArePaths self.now }
    {
        match self.paths.get(number) {
            Some(near) if near == path => Some(NodeId::of(number)),
            _ => self.find(path),
        }
    }

    /// The number of the module that a load statement names, if it names one.
    pub fn loaded(&self, load: &LoadStatement) -> Option<NodeId>
        ensures value { let target = module_path (listed self.now) load.now.target in
            MatchOption result (target ≡ None)
            (λ n. (n < length self.now) × (target ≡ Some (path_at self.now n))) }
        ensures paths { IfSome result (λ _. ArePaths self.now) }
    {
        match load.target() {
            Some(path) => self.find(path),
            None => None,
        }
    }
}
