//! The evaluation of modules.
ghost use Rattle.std.specs.Prelude.{◌≡◌, IfOk};
ghost use Rattle.workspace.specs.Workspaces.{paths_of};
ghost use Rattle.evaluation.specs.Runs.{run_module, module_ended};
ghost use Rattle.evaluation.specs.Workspaces.{linked_files};
ghost use Rattle.loader.specs.Places.{of_module};

use crate::evaluating::Evaluator;
use crate::made::KnownMade;
use crate::top::Top;
use crate::{Files, KnownModules};
use arena::Arena;
use evaluation::Module;
use file_places::ModulePlace;
use language::Whole;
use loading::Ending;
use plain::Text;
use running::{Setting, TopFile, end_run, run_top};
use std::alloc::{AllocError, Global};
use targets::Declarations;
use values::{Depset, Kind};

/// What a module comes to whose top level has ended.
fn ended(
    alloc: Global,
    file: &TopFile<'_>,
    whole: Box<Whole<'_, Declarations>>,
) -> Result<Result<Module, Ending<Kind>>, AllocError>
    ensures { IfOk result (λ r. r ≡ module_ended file.now.path.now file.now.number
        file.now.names.now whole.entry.value.state whole.entry.value.work) }
{
    let Whole { state, work } = Box::into_inner(whole);
    end_run(alloc, file, state, work)
}

/// What the module of a number comes to, at a path, with the modules that are known: the fault of
/// its top level, or what it hands on once that has ended.
pub(crate) fn run_module<K: KnownModules>(
    alloc: Global,
    kept: &Arena<Depset>,
    evaluator: &Evaluator,
    known: K,
    path: &Text,
    number: usize,
) -> Result<Result<Module, Ending<Kind>>, AllocError>
where
    K: Drop,
    ensures { let files = evaluator.now.sources in
        IfOk result (λ r. r ≡ run_module evaluator.now.limit (linked_files files) (paths_of files)
        of_module (K.known known) path.now number) }
{
    let top = Top::of(alloc, &evaluator.sources, path, number)?;
    let file = top.file();
    let paths = evaluator.sources.paths();
    let files = Files {
        alloc,
        paths,
        module_numbers: evaluator.sources.module_numbers(),
        known: &known,
    };
    let made = KnownMade { files: &files };
    let place = ModulePlace { linked: &made };
    let setting = Setting {
        alloc,
        linked: &files,
        place: &place,
        default_info: &evaluator.info,
        kept,
        codes: evaluator.sources.linked(),
        paths,
        limit: evaluator.limit,
    };
    match run_top(&setting, &file, Declarations::new(alloc))? {
        Ok(whole) => ended(alloc, &file, whole),
        Err(placed) => Ok(Err(Ending::Faulted(placed))),
    }
}
