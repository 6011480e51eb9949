//! The paths that at least two actions declare.
ghost use Rattle.std.specs.Prelude.{◌≡◌, ◌++◌, ◌∷◌, [], IfOk, OnOk, List};
ghost use Rattle.claims.specs.Commons.{common_of, commons_of, gathered};
ghost use Rattle.claims.specs.declared.claiming.Claim.{Claim as Claimed};

use crate::claiming::{Claim, all_claims, sort_claims};
use crate::members::{Member, Members};
use crate::owned::Owned;
use plain::Text;
use std::alloc::{AllocError, Global};
use std::mem;

/// A path that at least two actions declare, and these actions, by label and then by place in the
/// list.
#[derive(Drop)]
pub(crate) struct Common {
    pub path: Text,
    pub members: Members,
}

/// The paths that at least two of these actions declare, by bytes of the path.
pub(crate) fn commons(alloc: Global, owned: &[Owned<'_>]) -> Result<Vec<Common>, AllocError>
    ensures { IfOk result (λ v. v.items ≡ commons_of owned.now) }
{
    let mut claims = all_claims(alloc, owned)?;
    sort_claims(&mut claims)?;
    gather(alloc, claims.as_slice())
}

/// The paths that at least two claims name, path by path from the claims in order.
fn gather(alloc: Global, claims: &[Claim]) -> Result<Vec<Common>, AllocError>
    ensures { IfOk result (λ v. v.items ≡ gathered [] [] claims.now) }
{
    let mut gatherer = Gatherer {
        path: Text::new(alloc, "")?,
        found: Vec::new(alloc),
        members: Members::new(alloc),
    };
    for claim in claims {
        gatherer.take(alloc, claim)?;
    }
    gatherer.close(alloc)?;
    let Gatherer {
        found,
        path: _,
        members: _,
    } = gatherer;
    Ok(found)
}

/// What was found, and the actions that declare the path that is gathered.
#[derive(Drop)]
struct Gatherer {
    found: Vec<Common>,
    path: Text,
    members: Members,
}

impl Gatherer {
    /// Takes the next claim in order.
    fn take(&mut self, alloc: Global, claim: &Claim) -> Result<(), AllocError>
        ensures { OnOk result ((rest : List Claimed)
            → (self.new.found.items ++ gathered self.new.path self.new.members rest)
            ≡ (self.old.found.items
            ++ gathered self.old.path self.old.members (claim.now ∷ rest))) }
    {
        if self.path != claim.path {
            self.close(alloc)?;
            self.path = claim.path.share()?;
        }
        let label = claim.label.share()?;
        self.members.push(Member {
            label,
            place: claim.place,
        })
    }

    /// Ends the path that is gathered: it is kept where at least two actions declare it.
    fn close(&mut self, alloc: Global) -> Result<(), AllocError>
        ensures found { OnOk result (self.new.found.items
            ≡ self.old.found.items ++ common_of self.old.path self.old.members) }
        ensures path { OnOk result (self.new.path ≡ self.old.path) }
        ensures members { OnOk result (self.new.members ≡ []) }
    {
        if self.members.len() > 1 {
            let members = mem::replace(&mut self.members, Members::new(alloc));
            let path = self.path.share()?;
            self.found.push(Common { path, members })?;
        } else {
            self.members.clear();
        }
        Ok(())
    }
}
