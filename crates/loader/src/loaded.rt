//! Workspaces whose modules were evaluated.
ghost use Rattle.std.specs.Prelude.{◌≡◌, Ok, Err, IfOk, MatchResult};
ghost use Rattle.workspace.specs.Workspaces.{paths_of};
ghost use Rattle.load_graph.specs.Paths.{ArePaths};
ghost use Rattle.modules.specs.Modules.{modules_of};
ghost use Rattle.loader.specs.Files.{loads, build_at};
ghost use Rattle.loader.specs.Loaded.{AreFilesOf};

use crate::building::build_file;
use crate::evaluating::Evaluator;
use evaluation::Module;
use lexer::FaultKind;
use loading::{LoadFaultKind, Placed};
use modules::{Modules, load_all};
use operations::DefaultInfo;
use plain::Text;
use rule_calls::PackageTargets;
use sources::Sources;
use std::alloc::{AllocError, Global};
use std::marker::Model;
use std::thread::Threads;
use values::Kind;
use workspace::Workspace;

/// The files of a workspace, in ascending order of their paths, each read and compiled, and its
/// modules, each evaluated. The place of a file, from 0, is its number.
pub struct LoadedFiles {
    evaluator: Evaluator,
    modules: Modules<Module, FaultKind, Kind>,
}

impl Drop for LoadedFiles {
    fn drop(self) {
        let LoadedFiles {
            evaluator: _,
            modules: _,
        } = self;
    }
}

impl Model for LoadedFiles {
    ghost use Rattle.std.specs.Prelude.{◌≡◌};
    ghost use Rattle.modules.specs.Modules.{modules_of};
    ghost use Rattle.loader.specs.Files.{loads};
    ghost use Rattle.loader.specs.Loaded.{LoadedView};

    ghost Value = { LoadedView };

    ghost view = { λ l. record { files = l.evaluator.sources; limit = l.evaluator.limit } };

    ghost invariant = { λ l. l.modules ≡ modules_of (loads l.evaluator.sources l.evaluator.limit) };
}

/// Evaluates the modules among the files of a workspace.
fn evaluated(
    alloc: Global,
    workspace: &Workspace,
    evaluator: &Evaluator,
) -> Result<Modules<Module, FaultKind, Kind>, AllocError>
    requires files { AreFilesOf workspace.now evaluator.now.sources }
    ensures { let w = loads evaluator.now.sources evaluator.now.limit in
        IfOk result (λ m. m ≡ modules_of w) }
{
    load_all(alloc, workspace, evaluator)
}

impl LoadedFiles {
    /// Reads the files of a workspace, and evaluates its modules, each once and each after those
    /// that it loads. `limit` is how many ticks each evaluation may use: of a module, and later of
    /// a `BUILD` file or an implementation.
    ///
    /// Files are read by so many threads, which have ended when this returns; `rt` is the
    /// permission to start them. Modules are evaluated by the thread that calls.
    ///
    /// # Errors
    ///
    /// `AllocError` where memory was refused.
    pub fn of<R: Threads + Sync>(
        rt: &R,
        alloc: Global,
        workspace: &Workspace,
        limit: u64,
        threads: usize,
    ) -> Result<LoadedFiles, AllocError>
        ensures files { IfOk result (λ l. AreFilesOf workspace.now l.files) }
        ensures limit { IfOk result (λ l. l.limit ≡ limit) }
    {
        let sources = Sources::of(rt, alloc, workspace, threads)?;
        let evaluator = Evaluator {
            sources,
            info: DefaultInfo::new(alloc)?,
            limit,
        };
        let modules = evaluated(alloc, workspace, &evaluator)?;
        Ok(LoadedFiles { evaluator, modules })
    }

    /// The paths of the files, in order.
    pub fn paths(&self) -> &[Text]
        ensures value { result.now ≡ paths_of self.now.files }
        ensures ascending { ArePaths (paths_of self.now.files) }
    {
        self.evaluator.sources.paths()
    }

    /// The files, as they were read.
    pub fn sources(&self) -> &Sources
        ensures { result.now ≡ self.now.files }
    {
        &self.evaluator.sources
    }

    /// What the modules came to.
    pub fn modules(&self) -> &Modules<Module, FaultKind, Kind>
        ensures { result.now ≡ modules_of (loads self.now.files self.now.limit) }
    {
        &self.modules
    }

    /// The provider `DefaultInfo`, made once.
    pub fn default_info(&self) -> &DefaultInfo {
        &self.evaluator.info
    }

    /// How many ticks each evaluation may use.
    pub fn limit(&self) -> u64
        ensures { result ≡ self.now.limit }
    {
        self.evaluator.limit
    }

    /// The targets that the `BUILD` file at a path declares, or why it fails: its syntax fault,
    /// else the first of its load statements that fails, else the fault of its top level. A path
    /// without a file is that of an empty file.
    ///
    /// # Errors
    ///
    /// `AllocError` where memory was refused.
    pub fn build_file(
        &self,
        alloc: Global,
        path: &Text,
    ) -> Result<Result<PackageTargets, Placed<LoadFaultKind<FaultKind, Kind>>>, AllocError>
        ensures { let meant = build_at self.now.files self.now.limit path.now in
            IfOk result (λ r. MatchResult r (λ d. meant ≡ Ok d.targets) (λ f. meant ≡ Err f)) }
    {
        build_file(alloc, &self.evaluator, &self.modules, path)
    }
}
