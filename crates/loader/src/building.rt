//! The evaluation of `BUILD` files.
ghost use Rattle.std.specs.Prelude.{◌≡◌, Ok, Err, None, IfOk, MatchResult};
ghost use Rattle.workspace.specs.FileKinds.{package_of};
ghost use Rattle.workspace.specs.Workspaces.{paths_of};
ghost use Rattle.loading.specs.Modules.{built, build_linked};
ghost use Rattle.modules.specs.Modules.{modules_of};
ghost use Rattle.evaluation.specs.Workspaces.{targets_of};
ghost use Rattle.loader.specs.Files.{loads, build_at};
ghost use Rattle.loader.specs.Places.{of_build, no_targets};

use crate::evaluating::Evaluator;
use crate::made::KnownMade;
use crate::top::Top;
use crate::{Files, KnownModules, Loaded};
use arena::Arena;
use evaluation::Module;
use file_places::BuildPlace;
use language::Whole;
use lexer::FaultKind;
use loading::{FileRead, LoadFaultKind, Placed};
use modules::Modules;
use plain::Text;
use rule_calls::PackageTargets;
use running::{Setting, run_top};
use std::alloc::{AllocError, Global};
use values::{Depset, Kind};
use workspace::package_of;

/// What a `BUILD` file comes to: its targets, or why it fails.
type Built = Result<PackageTargets, Placed<LoadFaultKind<FaultKind, Kind>>>;

/// The package of a `BUILD` file, before it has declared anything.
fn no_targets(alloc: Global, path: &Text) -> Result<PackageTargets, AllocError>
    ensures { IfOk result (λ d. d ≡ no_targets path.now) }
{
    let package = Text::new(alloc, package_of(path.as_str()))?;
    Ok(PackageTargets::new(alloc, package))
}

/// What was declared.
fn declared(whole: Box<Whole<'_, PackageTargets>>) -> PackageTargets
    ensures { result ≡ whole.entry.value.work }
{
    let Whole { state: _, work } = Box::into_inner(whole);
    work
}

/// The targets that the `BUILD` file of a number declares, at a path, with the modules that are
/// known; or the fault of its top level.
fn run_build<K: KnownModules>(
    alloc: Global,
    kept: &Arena<Depset>,
    evaluator: &Evaluator,
    known: K,
    path: &Text,
    number: usize,
) -> Result<Result<PackageTargets, Placed<Kind>>, AllocError>
where
    K: Drop,
    ensures { let files = evaluator.now.sources in
        let meant = targets_of files evaluator.now.limit (of_build (paths_of files))
        (K.known known) path.now number in
        IfOk result (λ r. MatchResult r (λ d. meant ≡ Ok d.targets) (λ p. meant ≡ Err p)) }
{
    let top = Top::of(alloc, &evaluator.sources, path, number)?;
    let file = top.file();
    let paths = evaluator.sources.paths();
    let files = Files {
        alloc,
        paths,
        module_numbers: evaluator.sources.module_numbers(),
        known: &known,
    };
    let made = KnownMade { files: &files };
    let place = BuildPlace { linked: &made };
    let setting = Setting {
        alloc,
        linked: &files,
        place: &place,
        default_info: &evaluator.info,
        kept,
        codes: evaluator.sources.linked(),
        paths,
        limit: evaluator.limit,
    };
    let work = no_targets(alloc, path)?;
    match run_top(&setting, &file, work)? {
        Ok(whole) => Ok(Ok(declared(whole))),
        Err(placed) => Ok(Err(placed)),
    }
}

/// What a file comes to whose loads don't fail.
fn run_linked(
    alloc: Global,
    evaluator: &Evaluator,
    modules: &Modules<Module, FaultKind, Kind>,
    path: &Text,
    number: usize,
) -> Result<Built, AllocError>
    requires modules { let w = loads evaluator.now.sources evaluator.now.limit in
        modules.now ≡ modules_of w }
    ensures { let files = evaluator.now.sources in
        let limit = evaluator.now.limit in
        let meant = build_linked (loads files limit)
        (targets_of files limit (of_build (paths_of files))) path.now number None in
        IfOk result (λ r. MatchResult r (λ d. meant ≡ Ok d.targets) (λ f. meant ≡ Err f)) }
{
    match run_build(
        alloc,
        &Arena::new(),
        evaluator,
        Loaded { modules },
        path,
        number,
    )? {
        Ok(targets) => Ok(Ok(targets)),
        Err(placed) => Ok(Err(Placed {
            kind: LoadFaultKind::Evaluation(placed.kind),
            path: placed.path,
            line: placed.line,
        })),
    }
}

/// What a file without a syntax fault comes to: the first of its loads that fails, else what its
/// top level does.
fn linked(
    alloc: Global,
    evaluator: &Evaluator,
    modules: &Modules<Module, FaultKind, Kind>,
    path: &Text,
    read: &FileRead<usize>,
) -> Result<Built, AllocError>
    requires modules { let w = loads evaluator.now.sources evaluator.now.limit in
        modules.now ≡ modules_of w }
    ensures { let files = evaluator.now.sources in
        let limit = evaluator.now.limit in
        let meant = built (loads files limit) (targets_of files limit (of_build (paths_of files)))
        path.now (Ok read.now) in
        IfOk result (λ r. MatchResult r (λ d. meant ≡ Ok d.targets) (λ f. meant ≡ Err f)) }
{
    match modules.load_fault(evaluator, path, read.loads())? {
        Some(fault) => Ok(Err(fault)),
        None => run_linked(alloc, evaluator, modules, path, *read.tree()),
    }
}

/// The targets that the `BUILD` file at a path declares, or why it fails.
pub(crate) fn build_file(
    alloc: Global,
    evaluator: &Evaluator,
    modules: &Modules<Module, FaultKind, Kind>,
    path: &Text,
) -> Result<Built, AllocError>
    requires modules { let w = loads evaluator.now.sources evaluator.now.limit in
        modules.now ≡ modules_of w }
    ensures { let meant = build_at evaluator.now.sources evaluator.now.limit path.now in
        IfOk result (λ r. MatchResult r (λ d. meant ≡ Ok d.targets) (λ f. meant ≡ Err f)) }
{
    match evaluator.sources.read(alloc, path)? {
        Ok(read) => linked(alloc, evaluator, modules, path, &read),
        Err((kind, line)) => Ok(Err(Placed {
            kind: LoadFaultKind::Syntax(kind),
            path: path.share()?,
            line,
        })),
    }
}
