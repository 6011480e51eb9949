//! The end of a module's run.
ghost use Rattle.std.specs.Prelude.{◌≡◌, IfOk};
ghost use Rattle.evaluation.specs.Runs.{module_ended};

use crate::setting::TopFile;
use endings::end_module;
use evaluation::Module;
use loading::Ending;
use operations::State;
use std::alloc::{AllocError, Global};
use targets::Declarations;
use values::Kind;

/// What a module comes to whose top level ended in this state, and that made this: what it hands
/// on, frozen and named. (The number of its file is set here, so that no proof is needed that a run
/// keeps it.)
///
/// # Errors
///
/// `AllocError` where memory was refused.
pub fn end_run(
    alloc: Global,
    file: &TopFile<'_>,
    state: State<'_>,
    made: Declarations,
) -> Result<Result<Module, Ending<Kind>>, AllocError>
    ensures { IfOk result (λ r. r ≡ module_ended file.now.path.now file.now.number
        file.now.names.now state.entry made) }
{
    let names = file.names.share()?;
    let mut state = state;
    state.file = file.number;
    end_module(alloc, file.path, names, state, made)
}
