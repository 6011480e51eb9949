//! Loading a workspace.
ghost use Rattle.std.specs.Prelude.{◌≡◌, None, Some, IfOk, MatchOption};
ghost use Rattle.std.specs.List.Sorted.{IsPermutation};
ghost use Rattle.loading.specs.Loads.{loads_fault};
ghost use Rattle.loading.specs.Modules.{Sources, any_module};
ghost use Rattle.load_graph.specs.Paths.{ArePaths, module_paths};
ghost use Rattle.modules.specs.Evaluation.{sources};
ghost use Rattle.modules.specs.Found.{found_in};
ghost use Rattle.modules.specs.Modules.{module_in, modules_of};

use crate::evaluate::Evaluate;
use crate::faults::loads_fault;
use crate::found::{Find, Found};
use crate::load::{links, load_each, read_all};
use crate::sorting::{FileFault, sorted_out};
use load_graph::{Paths, Plan};
use loading::{LoadFaultKind, LoadStatement, Placed};
use plain::Text;
use std::alloc::{AllocError, Global};
use std::marker::Model;
use workspace::Workspace;

/// What the modules of a workspace came to.
#[derive(Drop)]
pub struct Modules<M, S, K> {
    paths: Paths,
    values: Vec<Option<M>>,
    faults: Vec<FileFault<S, K>>,
}

impl<M, S, K> Model for Modules<M, S, K> {
    ghost use Rattle.std.specs.Prelude.{◌≡◌, length};
    ghost use Rattle.modules.specs.Modules.{ModulesView};

    ghost Value = { ModulesView M S K };

    ghost view = { λ m. record {
      paths = m.paths;
      values = m.values.items;
      faults = m.faults.items;
    } };

    ghost invariant = { λ m. length m.values.items ≡ length m.paths };
}

impl<M, S, K> Find<M, S, K> for Modules<M, S, K> {
    ghost use Rattle.modules.specs.Found.{found_in};

    ghost at = { found_in };

    fn found(&self, path: &Text) -> Found<'_, M> {
        match self.paths.find(path) {
            Some(n) => match &self.values[n.number()] {
                Some(value) => Found::Module(value),
                None => Found::Failed,
            },
            None => Found::Missing,
        }
    }
}

impl<M, S, K> Modules<M, S, K> {
    /// The module at a path: none where it has a fault, or no module is there. The module of this
    /// number is looked at first: where the path is likely to be its own, nothing is searched.
    pub fn module_near(&self, number: usize, path: &Text) -> Option<&M>
        ensures { MatchOption result (module_in self.now path.now ≡ None)
            (λ m. module_in self.now path.now ≡ Some m.now) }
    {
        match self.paths.find_near(number, path) {
            Some(n) => self.values[n.number()].as_ref(),
            None => None,
        }
    }

    /// The module at a path: none where it has a fault, or no module is there.
    pub fn module(&self, path: &Text) -> Option<&M>
        ensures { MatchOption result (module_in self.now path.now ≡ None)
            (λ m. module_in self.now path.now ≡ Some m.now) }
    {
        self.module_near(usize::MAX, path)
    }

    /// The fault of the first of these load statements that has one, in a file that no module
    /// loads.
    ///
    /// # Errors
    ///
    /// `AllocError` where memory was refused.
    pub fn load_fault<T, E: Evaluate<T, M, S, K>>(
        &self,
        evaluator: &E,
        path: &Text,
        loads: &[LoadStatement],
    ) -> Result<Option<Placed<LoadFaultKind<S, K>>>, AllocError>
    where
        S: Drop,
        K: Drop,
        ensures always { let globals = (E.meaning evaluator.now).globals in
            IfOk result (λ f. f ≡ loads_fault globals path.now (found_in self.now) loads.now) }
        ensures known { (w : Sources T M S K) → self.now ≡ modules_of w
            → w.globals ≡ (E.meaning evaluator.now).globals
            → IfOk result (λ f. f ≡ loads_fault w.globals path.now (any_module w) loads.now) }
    {
        loads_fault(evaluator, self, path, loads)
    }

    /// The modules that have a fault, in ascending order of their paths.
    pub fn faults(&self) -> &[FileFault<S, K>]
        ensures { result.now ≡ self.now.faults }
    {
        &self.faults
    }
}

/// Loads all modules of a workspace, each once, and each after all that stand lower along `load`.
///
/// It takes the time of sorting paths and of looking up what load statements name, and otherwise a
/// time linear in modules and loads, beside what reading and evaluation take. Nothing recurses.
///
/// # Errors
///
/// `AllocError` where memory was refused.
pub fn load_all<T, M, S, K, E: Evaluate<T, M, S, K>>(
    alloc: Global,
    workspace: &Workspace,
    evaluator: &E,
) -> Result<Modules<M, S, K>, AllocError>
where
    T: Drop,
    M: Drop,
    S: Copy,
    K: Drop,
    ensures paths { IfOk result (λ m. IsPermutation (module_paths workspace.now) m.paths) }
    ensures ascending { IfOk result (λ m. ArePaths m.paths) }
    ensures modules { IfOk result
        (λ m. m ≡ modules_of (sources (E.meaning evaluator.now) m.paths)) }
{
    let paths = Paths::of(alloc, workspace)?;
    let files = read_all::<T, M, S, K, E>(alloc, evaluator, paths.as_slice())?;
    let deps = links(alloc, &paths, &files)?;
    let plan = Plan::of(alloc, deps)?;
    let done = load_each(alloc, evaluator, &paths, &files, &plan)?;
    let (values, faults) = sorted_out(alloc, paths.as_slice(), done)?;
    Ok(Modules {
        paths,
        values,
        faults,
    })
}
