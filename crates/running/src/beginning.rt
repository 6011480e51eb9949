//! What a run begins with.
ghost use Rattle.std.specs.Prelude.{◌≡◌, IfOk, length};
ghost use Rattle.evaluation.specs.Runs.{first_state, state_of_target};

use crate::setting::{Setting, TopFile};
use evaluation::{first_state, state_of_target};
use language::Whole;
use std::alloc::AllocError;
use workspace::Label;

/// A file before anything was done, with the work of its place.
pub(crate) fn first_of_file<'a, L, P, W: Drop>(
    setting: &Setting<'_, L, P>,
    file: &TopFile<'_>,
    work: W,
) -> Result<Box<Whole<'a, W>>, AllocError>
    ensures { IfOk result (λ b. b.value ≡ record {
      state = first_state setting.now.limit file.now.path.now file.now.number
          (length file.now.names.now) file.now.functions;
      work = work;
    }) }
{
    let state = first_state(
        setting.alloc,
        setting.limit,
        file.path,
        file.number,
        file.names.get().len(),
        file.functions,
    )?;
    Ok(Box::new(setting.alloc, Whole { state, work })?)
}

/// A target before anything was done, with the work of its place.
pub(crate) fn first_of_target<'a, L, P, W: Drop>(
    setting: &Setting<'_, L, P>,
    label: &Label,
    work: W,
) -> Result<Box<Whole<'a, W>>, AllocError>
    ensures { IfOk result (λ b. b.value ≡ record {
      state = state_of_target setting.now.limit label.now (length setting.now.paths.now);
      work = work;
    }) }
{
    let state = state_of_target(setting.alloc, setting.limit, label, setting.paths)?;
    Ok(Box::new(setting.alloc, Whole { state, work })?)
}
