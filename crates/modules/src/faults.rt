//! Why a load statement fails.
ghost use Rattle.std.specs.Prelude.{◌≡◌, None, Some, IfOk, option_and_then};
ghost use Rattle.loading.specs.Loads.{is_private, names_fault, module_fault, loads_fault};
ghost use Rattle.modules.specs.Found.{found_seen, without_fault};

use crate::evaluate::Evaluate;
use crate::found::{Find, Found};
use loading::{LoadFaultKind, LoadStatement, Placed};
use plain::Text;
use std::alloc::AllocError;

/// A fault of a file, at a line of it.
pub(crate) fn fault<S: Drop, K: Drop>(
    kind: LoadFaultKind<S, K>,
    path: &Text,
    line: u64,
) -> Result<Placed<LoadFaultKind<S, K>>, AllocError>
    ensures { IfOk result (λ f. f ≡ record { kind = kind; path = path.now; line = line }) }
{
    Ok(Placed {
        kind,
        path: path.share()?,
        line,
    })
}

/// Whether a name is its module's own: it begins with `_`.
fn is_private(name: &Text) -> bool
    ensures { result ≡ is_private name.now }
{
    match name.as_str().as_bytes().first() {
        Some(b) => *b == b'_',
        None => false,
    }
}

/// The fault of the first name that a statement can't have of a module.
fn names_fault<T, M, S: Drop, K: Drop, E: Evaluate<T, M, S, K>>(
    evaluator: &E,
    path: &Text,
    line: u64,
    asked: &[Text],
    value: &M,
) -> Result<Option<Placed<LoadFaultKind<S, K>>>, AllocError>
    ensures { let globals = (E.meaning evaluator.now).globals in
        IfOk result (λ f. f ≡ names_fault globals path.now line asked.now value.now) }
{
    for name in asked {
        if is_private(name) {
            return Ok(Some(fault(LoadFaultKind::PrivateName, path, line)?));
        }
        if !evaluator.binds(value, name) {
            return Ok(Some(fault(LoadFaultKind::MissingName, path, line)?));
        }
    }
    Ok(None)
}

/// What is found where a statement's label leads.
fn named<'f, M, S, K, F: Find<M, S, K>>(modules: &'f F, load: &LoadStatement) -> Found<'f, M>
    ensures { found_seen result
        ≡ without_fault (option_and_then (F.at modules.now) load.now.target) }
{
    match load.target() {
        Some(path) => modules.found(path),
        None => Found::Missing,
    }
}

/// The fault of a load statement.
fn load_fault<T, M, S: Drop, K: Drop, E: Evaluate<T, M, S, K>, F: Find<M, S, K>>(
    evaluator: &E,
    modules: &F,
    path: &Text,
    load: &LoadStatement,
) -> Result<Option<Placed<LoadFaultKind<S, K>>>, AllocError>
    ensures { let globals = (E.meaning evaluator.now).globals in
        let at = option_and_then (F.at modules.now) load.now.target in
        IfOk result (λ f. f ≡ module_fault globals path.now load.now at) }
{
    match named::<M, S, K, F>(modules, load) {
        Found::Missing => Ok(Some(fault(LoadFaultKind::MissingFile, path, load.line())?)),
        Found::Failed => Ok(Some(fault(LoadFaultKind::LoadedModuleFailed, path, load.line())?)),
        Found::Module(value) => names_fault(evaluator, path, load.line(), load.asked(), value),
    }
}

/// The fault of the first load statement that has one.
pub(crate) fn loads_fault<T, M, S: Drop, K: Drop, E: Evaluate<T, M, S, K>, F: Find<M, S, K>>(
    evaluator: &E,
    modules: &F,
    path: &Text,
    loads: &[LoadStatement],
) -> Result<Option<Placed<LoadFaultKind<S, K>>>, AllocError>
    ensures { let globals = (E.meaning evaluator.now).globals in
        IfOk result (λ f. f ≡ loads_fault globals path.now (F.at modules.now) loads.now) }
{
    for load in loads {
        if let Some(fault) = load_fault(evaluator, modules, path, load)? {
            return Ok(Some(fault));
        }
    }
    Ok(None)
}
