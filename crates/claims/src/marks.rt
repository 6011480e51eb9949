//! Which actions may be equal to others: those that declare nothing, or a path that another
//! declares too.
ghost use Rattle.std.specs.Prelude.{◌≡◌, IfOk, map};
ghost use Rattle.claims.specs.Marks.{is_bare, marked_all, marked_by};

use crate::commons::Common;
use crate::members::Member;
use crate::owned::Owned;
use std::alloc::{AllocError, Global};

/// Of each action whether it may be equal to another.
pub(crate) fn marks(
    alloc: Global,
    owned: &[Owned<'_>],
    commons: &[Common],
) -> Result<Vec<bool>, AllocError>
    ensures { IfOk result (λ v. v.items ≡ marked_all (map is_bare owned.now) commons.now) }
{
    let mut marks = bare(alloc, owned)?;
    mark_all(&mut marks, commons);
    Ok(marks)
}

/// Of each action whether it declares nothing.
fn bare(alloc: Global, owned: &[Owned<'_>]) -> Result<Vec<bool>, AllocError>
    ensures { IfOk result (λ v. v.items ≡ map is_bare owned.now) }
{
    let mut marks = Vec::new(alloc);
    for one in owned {
        marks.push(one.action().outputs.as_slice().is_empty())?;
    }
    Ok(marks)
}

/// Marks all that declare common paths.
fn mark_all(marks: &mut Vec<bool>, commons: &[Common])
    ensures { marks.new.items ≡ marked_all marks.old.items commons.now }
{
    for common in commons {
        mark_members(marks, common.members.as_slice());
    }
}

/// Marks these actions.
fn mark_members(marks: &mut Vec<bool>, members: &[Member])
    ensures { marks.new.items ≡ marked_by marks.old.items members.now }
{
    for member in members {
        if let Some(mark) = marks.get_mut(member.place) {
            *mark = true;
        }
    }
}
