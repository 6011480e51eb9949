//! What a target is given.
ghost use Rattle.std.specs.Prelude.{◌≡◌, IfOk, map, zip};
ghost use Rattle.analysis.specs.Seen.{dependencies_seen};

use analysis::{Dependency, Needed};
use std::alloc::{AllocError, Global};
use targets::Outcome;

/// Each label that a target depends on, with its outcome; the outcomes stand in the order of the
/// labels.
pub(crate) fn with_outcomes<'a>(
    alloc: Global,
    needed: &'a Needed,
    outcomes: &[&'a Outcome],
) -> Result<Vec<Dependency<'a>>, AllocError>
    ensures { IfOk result (λ ds. dependencies_seen ds.items
        ≡ zip needed.now (map (λ r. r.now) outcomes.now)) }
{
    let mut given = Vec::with_capacity(alloc, outcomes.len())?;
    for (place, outcome) in outcomes.iter().enumerate() {
        let Some(dependency) = needed.dependency(place, *outcome) else {
            return Ok(given);
        };
        given.push(dependency)?;
    }
    Ok(given)
}
