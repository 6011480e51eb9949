//! How the files of a workspace are read and evaluated.

use crate::Before;
use crate::modular::run_module;
use arena::Arena;
use evaluation::Module;
use lexer::FaultKind;
use loading::{Ending, FileRead};
use modules::{Evaluate, Known};
use operations::DefaultInfo;
use plain::Text;
use sources::Sources;
use std::alloc::{AllocError, Global};
use values::Kind;

/// What evaluations of files stand on, beside the modules that are known: the files as they were
/// read, the provider `DefaultInfo`, and how many ticks each evaluation may use.
pub(crate) struct Evaluator {
    pub sources: Sources,
    pub info: DefaultInfo,
    pub limit: u64,
}

impl Drop for Evaluator {
    fn drop(self) {
        let Evaluator {
            sources: _,
            info: _,
            limit: _,
        } = self;
    }
}

impl Evaluate<usize, Module, FaultKind, Kind> for Evaluator {
    ghost use Rattle.workspace.specs.Workspaces.{paths_of};
    ghost use Rattle.evaluation.specs.Evaluated.{global_names};
    ghost use Rattle.evaluation.specs.Runs.{run_module};
    ghost use Rattle.evaluation.specs.Workspaces.{linked_files, read_file};
    ghost use Rattle.loader.specs.Places.{of_module};

    ghost meaning = { λ e. record {
      read = read_file e.sources;
      globals = global_names;
      run = run_module e.limit (linked_files e.sources) (paths_of e.sources) of_module;
    } };

    fn read(
        &self,
        alloc: Global,
        path: &Text,
    ) -> Result<Result<FileRead<usize>, (FaultKind, u64)>, AllocError> {
        self.sources.read(alloc, path)
    }

    fn binds(&self, value: &Module, name: &Text) -> bool {
        value.binds(name)
    }

    fn run(
        &self,
        alloc: Global,
        known: &Known<'_, Module, FaultKind, Kind>,
        path: &Text,
        tree: &usize,
    ) -> Result<Result<Module, Ending<Kind>>, AllocError> {
        run_module(
            alloc,
            &Arena::new(),
            self,
            Before { modules: known },
            path,
            *tree,
        )
    }
}
