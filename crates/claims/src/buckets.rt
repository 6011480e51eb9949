//! Actions by the first that is equal to them.
ghost use Rattle.std.specs.Prelude.{◌≡◌, IfOk, OnOk, map};
ghost use Rattle.claims.specs.Buckets.{no_members, put_all, put_at};

use crate::clashes::leader_at;
use crate::members::{Member, Members};
use crate::owned::Owned;
use std::alloc::{AllocError, Global};

/// All actions, each with those that have its leader.
pub(crate) fn buckets(
    alloc: Global,
    owned: &[Owned<'_>],
    leaders: &[usize],
) -> Result<Vec<Members>, AllocError>
    ensures { IfOk result (λ v. v.items
        ≡ put_all leaders.now (map no_members owned.now) 0 owned.now) }
{
    let mut buckets = empty(alloc, owned)?;
    for (place, one) in owned.iter().enumerate() {
        put(&mut buckets, leader_at(leaders, place), one, place)?;
    }
    Ok(buckets)
}

/// A bucket for each action, with nothing in it.
fn empty(alloc: Global, owned: &[Owned<'_>]) -> Result<Vec<Members>, AllocError>
    ensures { IfOk result (λ v. v.items ≡ map no_members owned.now) }
{
    let mut buckets = Vec::new(alloc);
    for _one in owned {
        buckets.push(Members::new(alloc))?;
    }
    Ok(buckets)
}

/// Puts the action at a place into a bucket.
fn put(
    buckets: &mut Vec<Members>,
    leader: usize,
    owned: &Owned<'_>,
    place: usize,
) -> Result<(), AllocError>
    ensures { OnOk result (buckets.new.items ≡ put_at buckets.old.items leader
        (record { label = owned.now.label; place = place })) }
{
    if let Some(bucket) = buckets.get_mut(leader) {
        let label = owned.label().share()?;
        bucket.push(Member { label, place })?;
    }
    Ok(())
}
