//! Paths whose actions have one owner or aren't equal.
ghost use Rattle.std.specs.Prelude.{◌≡◌, ◌++◌, None, IfOk, OnOk, option_copied, slice_index_or};
ghost use Rattle.std.specs.List.{flat_map};
ghost use Rattle.claims.specs.Leaders.{all_lead};
ghost use Rattle.claims.specs.Members.{clash_by, clashes_after, some_clash};
ghost use Rattle.claims.specs.Conflicts.{conflict_by};

use crate::commons::Common;
use crate::members::{Member, labels_of};
use actions::Words;
use plain::Text;
use std::alloc::{AllocError, Global};

/// A path that actions declare that have one owner or aren't equal, and the labels of the owners of
/// all that declare it, in order: one for each action.
#[derive(Drop)]
pub struct Conflict {
    /// The path that clashes.
    pub path: Text,
    /// The labels of the actions that declare it, by label and then by place, one for each.
    pub labels: Words,
}

/// The place of the first that is equal to the action at a place.
pub(crate) fn leader_at(leaders: &[usize], place: usize) -> usize
    ensures { result ≡ slice_index_or leaders.now place place }
{
    match leaders.get(place) {
        Some(leader) => *leader,
        None => place,
    }
}

/// Whether each action is the first that is equal to it.
pub(crate) fn all_lead(leaders: &[usize]) -> bool
    ensures { result ≡ all_lead 0 leaders.now }
{
    for (place, leader) in leaders.iter().enumerate() {
        if *leader != place {
            return false;
        }
    }
    true
}

/// Whether two actions have one owner or aren't equal.
fn clash(leaders: &[usize], one: &Member, other: &Member) -> bool
    ensures { result ≡ clash_by leaders.now one.now other.now }
{
    one.label == other.label || leader_at(leaders, one.place) != leader_at(leaders, other.place)
}

/// Whether an action clashes with the one before it, if there is one.
fn clashes_with(leaders: &[usize], last: Option<&Member>, member: &Member) -> bool
    ensures { result ≡ clashes_after leaders.now (option_copied last.entry) member.now }
{
    match last {
        Some(one) => clash(leaders, one, member),
        None => false,
    }
}

/// Whether one of these actions clashes with the next.
pub(crate) fn has_clash(leaders: &[usize], members: &[Member]) -> bool
    ensures { result ≡ some_clash leaders.now None members.now }
{
    let mut last = None;
    for member in members {
        if clashes_with(leaders, last, member) {
            return true;
        }
        last = Some(member);
    }
    false
}

/// Puts the conflict of a common path last, if it is one.
fn put_conflict(
    alloc: Global,
    found: &mut Vec<Conflict>,
    leaders: &[usize],
    common: &Common,
) -> Result<(), AllocError>
    ensures { OnOk result (found.new.items
        ≡ found.old.items ++ conflict_by leaders.now common.now) }
{
    let members = common.members.as_slice();
    if has_clash(leaders, members) {
        let path = common.path.share()?;
        let labels = labels_of(alloc, members)?;
        found.push(Conflict { path, labels })?;
    }
    Ok(())
}

/// The conflicts among common paths.
pub(crate) fn conflicts_among(
    alloc: Global,
    leaders: &[usize],
    commons: &[Common],
) -> Result<Vec<Conflict>, AllocError>
    ensures { IfOk result (λ v. v.items ≡ flat_map (conflict_by leaders.now) commons.now) }
{
    let mut found = Vec::new(alloc);
    for common in commons {
        put_conflict(alloc, &mut found, leaders, common)?;
    }
    Ok(found)
}
