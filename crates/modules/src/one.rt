//! What one module comes to.
ghost use Rattle.std.specs.Prelude.{◌≡◌, ◌<◌, length, IfOk};
ghost use Rattle.loading.specs.Modules.{ended};
ghost use Rattle.modules.specs.Tables.{known_at};
ghost use Rattle.modules.specs.Evaluation.{linked_by, module_by};

use crate::evaluate::Evaluate;
use crate::faults::{fault, loads_fault};
use crate::known::Known;
use components::Components;
use load_graph::cycle_line;
use loading::{Ending, FileRead, LoadFaultKind, Placed};
use plain::Text;
use std::alloc::{AllocError, Global};

/// Evaluates a module.
fn evaluated<T, M, S, K, E: Evaluate<T, M, S, K>>(
    alloc: Global,
    evaluator: &E,
    known: &Known<'_, M, S, K>,
    path: &Text,
    tree: &T,
) -> Result<Result<M, Placed<LoadFaultKind<S, K>>>, AllocError>
where
    M: Drop,
    S: Drop,
    K: Drop,
    ensures { let run = (E.meaning evaluator.now).run in
        IfOk result (λ r. r ≡ ended path.now (run (known_at known.now) path.now tree.now)) }
{
    match evaluator.run(alloc, known, path, tree)? {
        Ok(value) => Ok(Ok(value)),
        Err(Ending::Faulted(placed)) => Ok(Err(Placed {
            kind: LoadFaultKind::Evaluation(placed.kind),
            path: placed.path,
            line: placed.line,
        })),
        Err(Ending::Unnamed) => Ok(Err(fault(LoadFaultKind::Unexported, path, 0)?)),
    }
}

/// Evaluates a module, unless one of its loads fails.
fn linked<T, M, S, K, E: Evaluate<T, M, S, K>>(
    alloc: Global,
    evaluator: &E,
    known: &Known<'_, M, S, K>,
    path: &Text,
    read: &FileRead<T>,
) -> Result<Result<M, Placed<LoadFaultKind<S, K>>>, AllocError>
where
    M: Drop,
    S: Drop,
    K: Drop,
    ensures { IfOk result
        (λ r. r ≡ linked_by (E.meaning evaluator.now) path.now read.now known.now) }
{
    match loads_fault(evaluator, known, path, read.loads())? {
        Some(fault) => Ok(Err(fault)),
        None => evaluated(alloc, evaluator, known, path, read.tree()),
    }
}

/// The module that a file is, in the component of this number.
pub(crate) fn module_by<T, M, S, K, E: Evaluate<T, M, S, K>>(
    alloc: Global,
    evaluator: &E,
    known: &Known<'_, M, S, K>,
    components: &Components,
    own: usize,
    path: &Text,
    file: &Result<FileRead<T>, (S, u64)>,
) -> Result<Result<M, Placed<LoadFaultKind<S, K>>>, AllocError>
where
    M: Drop,
    S: Copy,
    K: Drop,
    requires size { length components.now.deps ≡ length known.now.paths }
    ensures { let numbers = components.now.numbers in
        IfOk result (λ r. r
        ≡ module_by (E.meaning evaluator.now) numbers own path.now file.now known.now) }
{
    match file {
        Err((kind, line)) => Ok(Err(fault(LoadFaultKind::Syntax(*kind), path, *line)?)),
        Ok(read) => match cycle_line(known.paths, components, own, read.loads()) {
            Some(line) => Ok(Err(fault(LoadFaultKind::LoadCycle, path, line)?)),
            None => linked(alloc, evaluator, known, path, read),
        },
    }
}
