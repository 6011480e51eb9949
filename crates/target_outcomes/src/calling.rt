//! Calls of implementations.
ghost use Rattle.std.specs.Prelude.{◌≡◌, ℕ, [], IfOk, length};
ghost use Rattle.meaning.specs.Functions.{Files as Codes};
ghost use Rattle.meaning.specs.Calls.{function_meaning};
ghost use Rattle.meaning.specs.StatementCode.{code_of};
ghost use Rattle.language.specs.Language.{language, function_id};
ghost use Rattle.call_stack.specs.LinkedView.{codes_of};
ghost use Rattle.analysis.specs.Seen.{dependencies_seen};
ghost use Rattle.evaluation.specs.Runs.{context_alone, state_of_target, target_after};
ghost use Rattle.implementations.specs.Implementations.{implementation_place, target_world};
ghost use Rattle.contexts.specs.ByPlace.{files_at};
ghost use Rattle.target_outcomes.specs.Implementing.{implement};
ghost use Rattle.target_outcomes.specs.Seen.{Implements};

use crate::returning::{Implemented, returned};
use analysis::Dependency;
use arena::Arena;
use contexts::{FileLists, TargetContext, Work};
use evaluation::Module;
use implementations::{ImplementationPlace, Mnemonics};
use language::Link;
use lexer::FaultKind;
use loader::{Files, Loaded, LoadedFiles};
use loading::Placed;
use running::{Setting, call_implementation};
use std::alloc::{AllocError, Global};
use std::marker::Brand;
use targets::Target;
use values::{Depset, FunctionRef, Kind};
use workspace::Label;

/// Calls a function with `ctx` alone, in a place where nothing was done.
fn call<'a, 'b, L: Link<'a>, I: FileLists>(
    setting: &Setting<'a, L, ImplementationPlace<'a, 'b, I>>,
    label: &Label,
    function: &FunctionRef,
) -> Result<Result<Implemented, Placed<Kind>>, AllocError>
    ensures { let place = setting.now.place.now in
        (files : Codes) → codes_of setting.now.codes.now ≡ code_of files
        → IfOk result (Implements (target_after setting.now.limit files setting.now.paths.now
        target_world function.now (function_meaning
        (language (L.linked setting.now.linked.now)
        (implementation_place place.context.now.label.now
        place.context.now.target.now place.context.now.dependencies)) files
        (function_id function.now.id) context_alone
        (record {
          state = state_of_target setting.now.limit label.now
              (length setting.now.paths.now);
          work = record { files = []; actions = [] };
        })))) }
{
    let work = Work::new(setting.alloc);
    match call_implementation(setting, label, function.id, work)? {
        Ok(called) => returned(
            setting.alloc,
            setting.codes,
            setting.paths,
            function,
            called,
        ),
        Err(placed) => Ok(Err(placed)),
    }
}

/// The call of the implementation of the rule of a label's target, with its dependencies: what it
/// gave, or its fault.
pub(crate) fn implement<'a>(
    alloc: Global,
    files: &'a LoadedFiles,
    mnemonics: &'a Mnemonics,
    label: &'a Label,
    target: &'a Target,
    dependencies: &'a [Dependency<'a>],
) -> Result<Result<Implemented, Placed<Kind>>, AllocError>
    ensures { IfOk result (Implements (implement files.now.files files.now.limit label.now
        target.now (dependencies_seen dependencies.now))) }
{
    run::<Brand>(
        alloc,
        &Arena::new(),
        files,
        mnemonics,
        label,
        target,
        dependencies,
    )
}

/// [`implement`], where `I` has the lists of `ctx.files` of this target.
fn run<'a, I: FileLists>(
    alloc: Global,
    kept: &'a Arena<Depset>,
    files: &'a LoadedFiles,
    mnemonics: &'a Mnemonics,
    label: &'a Label,
    target: &'a Target,
    dependencies: &'a [Dependency<'a>],
) -> Result<Result<Implemented, Placed<Kind>>, AllocError>
    requires lists { (place : ℕ)
        → I.list_at place ≡ files_at target.now (dependencies_seen dependencies.now) place }
    ensures { IfOk result (Implements (implement files.now.files files.now.limit label.now
        target.now (dependencies_seen dependencies.now))) }
{
    modules::laws::modules_are_found_by_path::<usize, Module, FaultKind, Kind>();
    let info = files.default_info();
    let context = TargetContext::<I>::new(alloc, label, target, dependencies, info)?;
    let place = ImplementationPlace {
        context: &context,
        mnemonics,
    };
    let paths = files.paths();
    let modules = files.modules();
    let sources = files.sources();
    let known = Loaded { modules };
    let linked = Files {
        alloc,
        paths,
        module_numbers: sources.module_numbers(),
        known: &known,
    };
    let setting = Setting {
        alloc,
        linked: &linked,
        place: &place,
        default_info: info,
        kept,
        codes: sources.linked(),
        paths,
        limit: files.limit(),
    };
    let rule = target.rule.get();
    let function = rule.implementation.get();
    call(&setting, label, function)
}
