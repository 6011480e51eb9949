//! Runs, and what they come to.
ghost use Rattle.std.specs.Prelude.{◌≡◌, Ok, Err, IfOk, MatchResult};
ghost use Rattle.meaning.specs.Functions.{Files};
ghost use Rattle.meaning.specs.Calls.{top_meaning};
ghost use Rattle.meaning.specs.StatementCode.{code_of};
ghost use Rattle.frames.specs.Seen.{fault_seen};
ghost use Rattle.language.specs.Language.{language};
ghost use Rattle.call_stack.specs.LinkedView.{codes_of};
ghost use Rattle.machine.specs.StartView.{meaning_of};
ghost use Rattle.loading.specs.Loads.{path_at};
ghost use Rattle.evaluation.specs.Runs.{by_path, program_at, state_of_file};
ghost use Rattle.running.specs.Given.{AreOf};
ghost use Rattle.running.specs.Ran.{ran, top_ran};

use crate::beginning::first_of_file;
use crate::setting::{Setting, TopFile};
use evaluator::World;
use frames::{Fault, Stop};
use language::{Link, Place, Whole};
use loading::Placed;
use machine::{Start, execute};
use plain::Text;
use std::alloc::{AllocError, Global};
use values::{Kind, Value};

/// The path of the file of a number; a number that no file has stands for the empty text.
///
/// # Errors
///
/// `AllocError` where memory was refused.
pub fn path_at(alloc: Global, paths: &[Text], file: usize) -> Result<Text, AllocError>
    ensures { IfOk result (λ t. t ≡ path_at paths.now file) }
{
    match paths.get(file) {
        Some(path) => path.share(),
        None => Text::new(alloc, ""),
    }
}

/// A fault in a file, by the file's path.
fn by_path(alloc: Global, paths: &[Text], fault: Fault) -> Result<Placed<Kind>, AllocError>
    ensures { IfOk result (λ p. p ≡ by_path paths.now (fault_seen fault)) }
{
    let Fault { kind, file, line } = fault;
    Ok(Placed {
        kind,
        path: path_at(alloc, paths, file)?,
        line: line as u64,
    })
}

/// Runs what starts there, in a state.
pub(crate) fn run<'a, L: Link<'a>, P: Place<'a>>(
    setting: &Setting<'a, L, P>,
    start: Start<'a>,
    whole: &mut Whole<'a, P::Work>,
) -> Result<Result<Value, Placed<Kind>>, AllocError>
    ensures means { (files : Files) → codes_of setting.now.codes.now ≡ code_of files
        → (let meant = ran setting.now.paths.now (meaning_of
        (language (L.linked setting.now.linked.now) (P.place setting.now.place.now)) files
        start.entry whole.old) in
        IfOk result (λ r. MatchResult r (λ v. meant ≡ Ok (v, whole.new)) (λ p. meant ≡ Err p))) }
    ensures compiled { IfOk result (λ r. ∥ ((files : Files)
        × (codes_of setting.now.codes.now ≡ code_of files)) ∥₁) }
{
    let world: World<'a, L, P> = World {
        alloc: setting.alloc,
        linked: setting.linked,
        place: setting.place,
        default_info: setting.default_info,
        kept: setting.kept,
    };
    match execute(&world, setting.codes, start, whole) {
        Ok(value) => Ok(Ok(value)),
        Err(Stop::Fault(fault)) => Ok(Err(by_path(setting.alloc, setting.paths, fault)?)),
        Err(Stop::NoMemory) => Err(AllocError),
    }
}

/// Runs the top level of a file, from its beginning: the state after it, with the work of its
/// place, or its fault. The codes are those of some files; where the names and the count of
/// functions are its own among them, the answer is what its top level means.
///
/// # Errors
///
/// `AllocError` where memory was refused.
pub fn run_top<'a, L: Link<'a>, P: Place<'a>>(
    setting: &Setting<'a, L, P>,
    file: &TopFile<'_>,
    work: P::Work,
) -> Result<Result<Box<Whole<'a, P::Work>>, Placed<Kind>>, AllocError>
where
    P::Work: Drop,
    ensures means { (files : Files) → codes_of setting.now.codes.now ≡ code_of files
        → AreOf files file.now.number file.now.names.now file.now.functions
        → (let meant = top_ran setting.now.paths.now (top_meaning
        (language (L.linked setting.now.linked.now) (P.place setting.now.place.now)) files
        file.now.number
        (record {
          state = state_of_file setting.now.limit file.now.path.now file.now.number
              (program_at files file.now.number);
          work = work;
        })) in
        IfOk result (λ r. MatchResult r (λ b. meant ≡ Ok b.value) (λ p. meant ≡ Err p))) }
    ensures compiled { IfOk result (λ r. ∥ ((files : Files)
        × (codes_of setting.now.codes.now ≡ code_of files)) ∥₁) }
{
    let mut whole: Box<Whole<'a, P::Work>> = first_of_file(setting, file, work)?;
    match run(setting, Start::TopLevel(file.number as usize), &mut whole)? {
        Ok(_) => Ok(Ok(whole)),
        Err(placed) => Ok(Err(placed)),
    }
}
