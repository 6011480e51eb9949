//! All modules of a workspace, each evaluated once.
ghost use Rattle.std.specs.Prelude.{◌≡◌, ◌<◌, None, Some, length, map, IfOk};
ghost use Rattle.loading.specs.Loads.{of_modules, path_at};
ghost use Rattle.loading.specs.Modules.{targets_in, module_of};
ghost use Rattle.load_graph.specs.Paths.{listed, AreNumbers};
ghost use Rattle.modules.specs.Evaluation.{sources};
ghost use Rattle.modules.specs.Loading.{AreLinks, IsReady, IsBelow};

use crate::evaluate::Evaluate;
use crate::known::Known;
use crate::one::module_by;
use edges::{Adjacency, NodeId};
use load_graph::{Paths, Plan, row_of};
use loading::{FileRead, LoadFaultKind, Placed};
use plain::Text;
use std::alloc::{AllocError, Global};

/// What each file is read as.
pub(crate) fn read_all<T: Drop, M, S: Drop, K, E: Evaluate<T, M, S, K>>(
    alloc: Global,
    evaluator: &E,
    paths: &[Text],
) -> Result<Vec<Result<FileRead<T>, (S, u64)>>, AllocError>
    ensures { IfOk result (λ v. v.items ≡ map (E.meaning evaluator.now).read paths.now) }
{
    let mut files = Vec::with_capacity(alloc, paths.len())?;
    for path in paths {
        files.push(evaluator.read(alloc, path)?)?;
    }
    Ok(files)
}

/// The modules that a file loads, by number, in order.
fn file_row<T, S>(
    alloc: Global,
    paths: &Paths,
    file: &Result<FileRead<T>, (S, u64)>,
) -> Result<Vec<NodeId>, AllocError>
    ensures { let named = targets_in (of_modules (listed paths.now) file.now) in
        IfOk result (λ v. AreNumbers paths.now named v.items) }
{
    match file {
        Ok(read) => row_of(alloc, paths, read.loads()),
        Err(_) => Ok(Vec::new(alloc)),
    }
}

/// The modules that each file loads.
pub(crate) fn links<T, S>(
    alloc: Global,
    paths: &Paths,
    files: &[Result<FileRead<T>, (S, u64)>],
) -> Result<Adjacency, AllocError>
    ensures { IfOk result (AreLinks paths.now files.now) }
{
    let mut deps = Adjacency::with_capacity(alloc, paths.as_slice().len(), 0)?;
    for file in files {
        let row = file_row(alloc, paths, file)?;
        deps.push(&row)?;
    }
    Ok(deps)
}

/// Evaluates the module of this number, where all that stand lower are done.
fn load_one<T, M, S, K, E: Evaluate<T, M, S, K>>(
    alloc: Global,
    evaluator: &E,
    paths: &Paths,
    files: &[Result<FileRead<T>, (S, u64)>],
    plan: &Plan,
    done: &[Option<Result<M, Placed<LoadFaultKind<S, K>>>>],
    n: usize,
) -> Result<Result<M, Placed<LoadFaultKind<S, K>>>, AllocError>
where
    M: Drop,
    S: Copy,
    K: Drop,
    requires ready { let p = plan.now in
        IsReady (E.meaning evaluator.now) paths.now files.now
        p.components p.heights.items p.order.items }
    requires node { n < length paths.now }
    requires below { let w = sources (E.meaning evaluator.now) paths.now in
        IsBelow w plan.now.heights.items done.now n }
    ensures { let w = sources (E.meaning evaluator.now) paths.now in
        IfOk result (λ r. r ≡ module_of w (path_at paths.now n)) }
{
    let known = Known {
        paths,
        heights: &plan.heights,
        below: plan.heights[n],
        done,
    };
    let own = plan.components.number(NodeId::of(n));
    let path = &paths.as_slice()[n];
    module_by(
        alloc,
        evaluator,
        &known,
        &plan.components,
        own,
        path,
        &files[n],
    )
}

/// Nothing done, of so many.
fn nothing<R: Drop>(alloc: Global, count: usize) -> Result<Vec<Option<R>>, AllocError>
    ensures { IfOk result (λ v. length v.items ≡ count) }
{
    let mut done = Vec::with_capacity(alloc, count)?;
    for _ in 0..count {
        done.push(None)?;
    }
    Ok(done)
}

/// Evaluates all modules, lower ones first.
pub(crate) fn load_each<T, M, S, K, E: Evaluate<T, M, S, K>>(
    alloc: Global,
    evaluator: &E,
    paths: &Paths,
    files: &[Result<FileRead<T>, (S, u64)>],
    plan: &Plan,
) -> Result<Vec<Option<Result<M, Placed<LoadFaultKind<S, K>>>>>, AllocError>
where
    M: Drop,
    S: Copy,
    K: Drop,
    requires ready { let p = plan.now in
        IsReady (E.meaning evaluator.now) paths.now files.now
        p.components p.heights.items p.order.items }
    ensures { let w = sources (E.meaning evaluator.now) paths.now in
        IfOk result (λ v. v.items ≡ map (λ p. Some (module_of w p)) paths.now) }
{
    let mut done = nothing(alloc, paths.as_slice().len())?;
    for n in &plan.order {
        let loaded = load_one(alloc, evaluator, paths, files, plan, &done, *n)?;
        done[*n] = Some(loaded);
    }
    Ok(done)
}
