//! Dependencies that failed.
ghost use Rattle.std.specs.Prelude.{◌≡◌, ◌++◌, ◌∷◌, [], IfOk, OnOk};
ghost use Rattle.targets.specs.Steps.{failed_labels};
ghost use Rattle.analysis.specs.Seen.{dependencies_seen};

use crate::dependency::Dependency;
use plain::Shared;
use std::alloc::{AllocError, Global};
use targets::Sequence;
use workspace::Label;

/// The labels of the dependencies that failed, in order.
///
/// # Errors
///
/// `AllocError` where memory was refused.
pub fn failed_labels(
    alloc: Global,
    dependencies: &[Dependency<'_>],
) -> Result<Sequence<Shared<Label>>, AllocError>
    ensures { IfOk result (λ ls. ls ≡ failed_labels (dependencies_seen dependencies.now)) }
{
    let mut failed = Sequence::new(alloc);
    for dependency in dependencies {
        note_failed(dependency, &mut failed)?;
    }
    Ok(failed)
}

/// Puts a dependency's label last, if it failed.
fn note_failed(
    dependency: &Dependency<'_>,
    failed: &mut Sequence<Shared<Label>>,
) -> Result<(), AllocError>
    ensures { OnOk result (failed.new ≡ failed.old
        ++ failed_labels (dependencies_seen (dependency.now ∷ []))) }
{
    if dependency.outcome.is_failed() {
        failed.push(dependency.label.share()?)?;
    }
    Ok(())
}
