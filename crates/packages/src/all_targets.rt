//! All targets of a workspace.
ghost use Rattle.std.specs.Prelude.{◌≡◌, IfOk};
ghost use Rattle.std.specs.List.{list_any};
ghost use Rattle.std.specs.Str.{bytes_eq};
ghost use Rattle.workspace.specs.Labels.{label_path};
ghost use Rattle.workspace.specs.Workspaces.{paths_of};
ghost use Rattle.targets.specs.Resolving.{named};
ghost use Rattle.loader.specs.Files.{faults};
ghost use Rattle.packages.specs.Packages.{package_at};
ghost use Rattle.packages.specs.Seen.{AreItsOwn, HasDependencies, found_named, named_seen};

use crate::building::{Declared, declare_all};
use crate::kept::Package;
use crate::resolved::Named;
use analysis::Needed;
use graph::Dependencies;
use indexmap::IndexMap;
use lexer::FaultKind;
use loader::LoadedFiles;
use modules::FileFault;
use plain::{Shared, Text};
use rule_calls::Name;
use std::alloc::{AllocError, Global};
use std::marker::Model;
use std::thread::Threads;
use targets::Target;
use values::Kind;
use workspace::Label;

/// A workspace whose `BUILD` files were evaluated, each once.
pub struct Targets {
    alloc: Global,
    files: LoadedFiles,
    packages: IndexMap<Text, Package>,
    faults: Vec<FileFault<FaultKind, Kind>>,
}

impl Drop for Targets {
    fn drop(self) {
        let Targets {
            alloc: _,
            files: _,
            packages: _,
            faults: _,
        } = self;
    }
}

impl Model for Targets {
    ghost use Rattle.loader.specs.Loaded.{LoadedView};
    ghost use Rattle.packages.specs.Kept.{AreAll};

    ghost Value = { LoadedView };

    ghost view = { λ t. t.files };

    ghost invariant = { λ t.
        AreAll t.files.files t.files.limit t.packages.entries t.faults.items };
}

/// What is declared of a label. One that no target has may still name a source file, which
/// [`Targets::named`] looks for.
pub(crate) enum Declaration<'a> {
    /// A declared target, with what it depends on.
    Target(&'a Target, &'a Needed),
    /// No target, in a package that declares others or none.
    Undeclared,
    /// The package's `BUILD` file failed.
    FailedPackage,
    /// The package has no `BUILD` file.
    NoPackage,
}

/// Whether a workspace has a file of a label's path.
fn is_file(alloc: Global, files: &LoadedFiles, label: &Label) -> Result<bool, AllocError>
    ensures { let path = label_path label.now in
        IfOk result (λ b. b ≡ list_any (bytes_eq path) (paths_of files.now.files)) }
{
    let path = label.path(alloc)?;
    Ok(files.sources().number(&path).is_some())
}

impl Targets {
    /// Evaluates each `BUILD` file of a workspace, by one of so many threads, which have ended when
    /// this returns. `rt` is the permission to start threads.
    ///
    /// # Errors
    ///
    /// `AllocError` where memory was refused.
    pub fn declare<R: Threads + Sync>(
        rt: &R,
        alloc: Global,
        files: LoadedFiles,
        threads: usize,
    ) -> Result<Targets, AllocError>
        ensures { IfOk result (λ t. t ≡ files) }
    {
        let Declared { packages, faults } = declare_all(rt, alloc, &files, threads)?;
        Ok(Targets {
            alloc,
            files,
            packages,
            faults,
        })
    }

    /// The files, and the modules among them.
    pub fn files(&self) -> &LoadedFiles
        ensures { result.now ≡ self.now }
    {
        &self.files
    }

    /// The files that fail, and why: modules and `BUILD` files, in ascending order of their paths.
    pub fn faults(&self) -> &[FileFault<FaultKind, Kind>]
        ensures { result.now ≡ faults self.now.files self.now.limit }
    {
        &self.faults
    }

    /// The files that failed, with the reasons, as [`faults`](Targets::faults) lends them; all else
    /// is let go.
    pub fn into_faults(self) -> Vec<FileFault<FaultKind, Kind>>
        ensures { result.items ≡ faults self.files self.limit }
    {
        let Targets {
            alloc: _,
            files: _,
            packages: _,
            faults,
        } = self;
        faults
    }

    /// The declaration of a label.
    fn find(&self, label: &Label) -> Declaration<'_>
        ensures named { let packages = package_at self.now.files self.now.limit in
            found_named (paths_of self.now.files) packages label.now result
            ≡ named (paths_of self.now.files) packages label.now }
        ensures dependencies { AreItsOwn result }
    {
        label.legal();
        match self.packages.get(Name {
            text: label.package(),
        }) {
            Some(Package::Declared(targets)) => match targets.find(label) {
                Some((target, dependencies)) => Declaration::Target(target, dependencies),
                None => Declaration::Undeclared,
            },
            Some(Package::Failed) => Declaration::FailedPackage,
            None => Declaration::NoPackage,
        }
    }

    /// What a label names, by the first that applies: nothing, where its package has no `BUILD`
    /// file; a package that failed; a target that the package declares; a source file of the
    /// label's path; else nothing. Memory is used only to look for the file.
    ///
    /// # Errors
    ///
    /// `AllocError` where memory was refused.
    pub fn named(&self, label: &Label) -> Result<Named<'_>, AllocError>
        ensures named { IfOk result (λ n. named_seen n ≡ named (paths_of self.now.files)
            (package_at self.now.files self.now.limit) label.now) }
        ensures dependencies { IfOk result (λ n. HasDependencies n) }
    {
        match self.find(label) {
            Declaration::Target(target, dependencies) => Ok(Named::Target {
                target,
                dependencies,
            }),
            Declaration::Undeclared => {
                if is_file(self.alloc, &self.files, label)? {
                    Ok(Named::SourceFile)
                } else {
                    Ok(Named::Nothing)
                }
            }
            Declaration::FailedPackage => Ok(Named::FailedPackage),
            Declaration::NoPackage => Ok(Named::Nothing),
        }
    }
}

impl Dependencies for Targets {
    ghost use Rattle.workspace.specs.Workspaces.{paths_of};
    ghost use Rattle.targets.specs.Resolving.{needs};
    ghost use Rattle.packages.specs.Packages.{package_at};

    ghost needs = { λ t. needs (paths_of t.files) (package_at t.files t.limit) };

    fn deps(&self, label: &Label) -> &[Shared<Label>] {
        match self.find(label) {
            Declaration::Target(_, dependencies) => dependencies.labels(),
            Declaration::Undeclared | Declaration::FailedPackage | Declaration::NoPackage => &[],
        }
    }
}
