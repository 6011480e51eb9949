//! Sets of equal actions, no two of which have one owner.
ghost use Rattle.std.specs.Prelude.{◌≡◌, ◌<◌, None, IfOk, OnOk, option_copied};
ghost use Rattle.std.specs.List.{AllZip};
ghost use Rattle.claims.specs.Sets.{AddsSetOf, AreSetsOf, IsSetOf, is_twin, set_from};
ghost use Rattle.claims.specs.Sets.{some_twin};

use crate::members::{Member, Members, Places, labels_of, places_of};
use actions::Words;
use std::alloc::{AllocError, Global};

/// Actions that are shared: the places of equal actions, by the labels of their owners, and these
/// labels.
#[derive(Drop)]
pub struct Shared {
    /// Where its actions stand in the list, by the labels of their owners.
    pub places: Places,
    /// The labels of these owners, no two the same.
    pub owners: Words,
}

/// Of each bucket the set that it is, if its actions are shared.
pub(crate) fn sets(alloc: Global, buckets: &[Members]) -> Result<Vec<Option<Shared>>, AllocError>
    ensures { IfOk result (λ v. AllZip IsSetOf buckets.now v.items) }
{
    let mut sets = Vec::new(alloc);
    for bucket in buckets {
        sets.push(set_of(alloc, bucket.as_slice())?)?;
    }
    Ok(sets)
}

/// The sets that buckets are, of those whose actions are shared.
pub(crate) fn found(alloc: Global, buckets: &[Members]) -> Result<Vec<Shared>, AllocError>
    ensures { IfOk result (λ v. AreSetsOf buckets.now v.items) }
{
    let mut found = Vec::new(alloc);
    for bucket in buckets {
        put_set(alloc, &mut found, bucket.as_slice())?;
    }
    Ok(found)
}

/// Puts the set that a bucket is last, if its actions are shared.
fn put_set(alloc: Global, found: &mut Vec<Shared>, bucket: &[Member]) -> Result<(), AllocError>
    ensures { OnOk result (AddsSetOf bucket.now found.old.items found.new.items) }
{
    if let Some(set) = set_of(alloc, bucket)? {
        found.push(set)?;
    }
    Ok(())
}

/// The set of equal actions, if there are at least two, no two of one owner.
fn set_of(alloc: Global, members: &[Member]) -> Result<Option<Shared>, AllocError>
    ensures { IfOk result (IsSetOf members.now) }
{
    if members.len() < 2 {
        return Ok(None);
    }
    let sorted = Members::sorted(alloc, members)?;
    set_from(alloc, sorted.as_slice())
}

/// The set of actions that are in order, if no two of them have one owner.
fn set_from(alloc: Global, members: &[Member]) -> Result<Option<Shared>, AllocError>
    ensures { IfOk result (λ s. s ≡ set_from members.now) }
{
    if has_twins(members) {
        return Ok(None);
    }
    let places = places_of(alloc, members)?;
    let owners = labels_of(alloc, members)?;
    Ok(Some(Shared { places, owners }))
}

/// Whether an action has the owner of the one before it, if there is one.
fn is_twin(last: Option<&Member>, member: &Member) -> bool
    ensures { result ≡ is_twin (option_copied last.entry) member.now }
{
    match last {
        Some(one) => one.label == member.label,
        None => false,
    }
}

/// Whether one of these actions has the owner of the next.
fn has_twins(members: &[Member]) -> bool
    ensures { result ≡ some_twin None members.now }
{
    let mut last = None;
    for member in members {
        if is_twin(last, member) {
            return true;
        }
        last = Some(member);
    }
    false
}
