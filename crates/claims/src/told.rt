//! Conflicts and shared actions of a list.
ghost use Rattle.std.specs.Prelude.{◌≡◌, IfOk, map};
ghost use Rattle.depsets.specs.Listed.{flat, walked};
ghost use Rattle.claims.specs.Clashes.{AreConflicts};
ghost use Rattle.actions.specs.Ascending.{Each};
ghost use Rattle.claims.specs.Coherent.{AreCoherent};
ghost use Rattle.claims.specs.Commons.{commons_of};
ghost use Rattle.claims.specs.Conflicts.{conflicts_of};
ghost use Rattle.claims.specs.Labels.{AreLabels};
ghost use Rattle.claims.specs.Leaders.{leaders};
ghost use Rattle.claims.specs.Sharing.{AreShared};
ghost use Rattle.claims.specs.Telling.{telling};

use crate::buckets::buckets;
use crate::clashes::{Conflict, all_lead, conflicts_among};
use crate::commons::{Common, commons};
use crate::leaders::leaders;
use crate::marks::marks;
use crate::owned::Owned;
use crate::sets::{Shared, found, sets};
use crate::telling::{Telling, all_alone, tellings};
use std::alloc::{AllocError, Global};

/// What a report tells of the actions of a list: its conflicts, and how each action is told.
#[derive(Drop)]
pub struct Told {
    /// The conflicts, by bytes of the path.
    pub conflicts: Vec<Conflict>,
    /// How each action is told, one for each, in the order of the list.
    pub tellings: Vec<Telling>,
}

/// The conflicts of these actions, and how each is told. Conflicts stand by bytes of the path; the
/// labels of one are in order, by bytes, and a label stands there as often as its actions declare
/// the path.
///
/// It takes n log n comparisons of paths for n outputs, and lists the inputs once of each action
/// that declares a path that another declares too, or none. Where inputs are coherent, they are
/// compared as the plain listing has them.
///
/// # Errors
///
/// `AllocError` where memory was refused.
pub fn tell(alloc: Global, owned: &[Owned<'_>]) -> Result<Told, AllocError>
    ensures law { IfOk result (λ t. AreConflicts walked owned.now t.conflicts.items) }
    ensures labels { IfOk result
        (λ t. Each (λ c. AreLabels owned.now c.path c.labels) t.conflicts.items) }
    ensures plain { IfOk result
        (λ t. AreCoherent owned.now → AreConflicts flat owned.now t.conflicts.items) }
    ensures conflicts { IfOk result (λ t. t.conflicts.items ≡ conflicts_of walked owned.now) }
    ensures tellings { IfOk result (λ t. t.tellings.items
        ≡ map (telling walked owned.now) owned.now) }
    ensures plain_tellings { IfOk result (λ t. AreCoherent owned.now → t.tellings.items
        ≡ map (telling flat owned.now) owned.now) }
{
    let commons = commons(alloc, owned)?;
    let leaders = leaders_among(alloc, owned, &commons)?;
    let conflicts = conflicts_by(alloc, owned, &leaders, &commons)?;
    let tellings = tellings_by(alloc, owned, &leaders)?;
    Ok(Told {
        conflicts,
        tellings,
    })
}

/// The leaders of these actions, where these are their common paths.
fn leaders_among(
    alloc: Global,
    owned: &[Owned<'_>],
    commons: &[Common],
) -> Result<Vec<usize>, AllocError>
    requires commons { commons.now ≡ commons_of owned.now }
    ensures { IfOk result (λ v. v.items ≡ leaders walked owned.now) }
{
    let marks = marks(alloc, owned, commons)?;
    leaders(alloc, owned, &marks)
}

/// The conflicts of these actions, where these are their leaders and common paths.
fn conflicts_by(
    alloc: Global,
    owned: &[Owned<'_>],
    led: &[usize],
    commons: &[Common],
) -> Result<Vec<Conflict>, AllocError>
    requires commons { commons.now ≡ commons_of owned.now }
    requires led { led.now ≡ leaders walked owned.now }
    ensures { IfOk result (λ v. v.items ≡ conflicts_of walked owned.now) }
{
    let _count = owned.len();
    conflicts_among(alloc, led, commons)
}

/// How these actions are told, where these are their leaders.
fn tellings_by(
    alloc: Global,
    owned: &[Owned<'_>],
    led: &[usize],
) -> Result<Vec<Telling>, AllocError>
    requires led { led.now ≡ leaders walked owned.now }
    ensures { IfOk result (λ v. v.items ≡ map (telling walked owned.now) owned.now) }
{
    if all_lead(led) {
        return all_alone(alloc, owned);
    }
    told_by_sets(alloc, owned, led)
}

/// How these actions are told, by the sets of their leaders.
fn told_by_sets(
    alloc: Global,
    owned: &[Owned<'_>],
    led: &[usize],
) -> Result<Vec<Telling>, AllocError>
    requires led { led.now ≡ leaders walked owned.now }
    ensures { IfOk result (λ v. v.items ≡ map (telling walked owned.now) owned.now) }
{
    let buckets = buckets(alloc, owned, led)?;
    let sets = sets(alloc, &buckets)?;
    tellings(alloc, owned, led, &sets)
}

/// The shared actions: each set of at least two equal actions, no two of which have one owner,
/// whole and by the labels of the owners; the sets by the least of their places in the list. Where
/// inputs are coherent, they are compared as the plain listing has them.
///
/// # Errors
///
/// `AllocError` where memory was refused.
pub fn shared(alloc: Global, owned: &[Owned<'_>]) -> Result<Vec<Shared>, AllocError>
    ensures law { IfOk result (λ v. AreShared walked owned.now v.items) }
    ensures plain { IfOk result (λ v. AreCoherent owned.now → AreShared flat owned.now v.items) }
{
    let commons = commons(alloc, owned)?;
    let leaders = leaders_among(alloc, owned, &commons)?;
    sets_by(alloc, owned, &leaders)
}

/// The shared actions, where these are the leaders of all.
fn sets_by(alloc: Global, owned: &[Owned<'_>], led: &[usize]) -> Result<Vec<Shared>, AllocError>
    requires led { led.now ≡ leaders walked owned.now }
    ensures { IfOk result (λ v. AreShared walked owned.now v.items) }
{
    if all_lead(led) {
        return Ok(Vec::new(alloc));
    }
    found_sets(alloc, owned, led)
}

/// The shared actions, by the buckets of these leaders.
fn found_sets(alloc: Global, owned: &[Owned<'_>], led: &[usize]) -> Result<Vec<Shared>, AllocError>
    requires led { led.now ≡ leaders walked owned.now }
    ensures { IfOk result (λ v. AreShared walked owned.now v.items) }
{
    let buckets = buckets(alloc, owned, led)?;
    found(alloc, &buckets)
}
