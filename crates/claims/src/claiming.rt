//! What actions declare: as it comes, and then in order, by path, then by label, then by place in
//! the list.
ghost use Rattle.std.specs.Prelude.{◌≡◌, ◌++◌, ◌∷◌, [], IfOk, OnOk};
ghost use Rattle.claims.specs.Claims.{claim_on, claims_of, claims_from, in_order};

use crate::owned::Owned;
use depsets::FileRef;
use plain::{Shared, Text, push_last};
use std::alloc::{AllocError, Global};

/// An action declares a path: the path, the label of the action's owner, and the action's place in
/// the list.
#[derive(PartialEq, Eq, PartialOrd, Ord, Drop)]
pub(crate) struct Claim {
    pub path: Text,
    pub label: Text,
    pub place: usize,
}

/// All claims of these actions, as they come.
pub(crate) fn all_claims(alloc: Global, owned: &[Owned<'_>]) -> Result<Vec<Claim>, AllocError>
    ensures { IfOk result (λ v. v.items ≡ claims_from 0 owned.now) }
{
    let mut claims = Vec::new(alloc);
    for (place, one) in owned.iter().enumerate() {
        claim_outputs(&mut claims, place, one)?;
    }
    Ok(claims)
}

/// Puts claims in order, each once.
pub(crate) fn sort_claims(claims: &mut Vec<Claim>) -> Result<(), AllocError>
    ensures { OnOk result (claims.new.items ≡ in_order claims.old.items) }
{
    claims.sort()?;
    claims.dedup();
    Ok(())
}

/// Adds the claims of one action.
fn claim_outputs(claims: &mut Vec<Claim>, place: usize, owned: &Owned<'_>) -> Result<(), AllocError>
    ensures { OnOk result (claims.new.items ≡ claims.old.items ++ claims_of place owned.now) }
{
    let label = owned.label();
    let action = owned.action();
    let files = action.outputs.as_slice();
    for file in files {
        add_claim(claims, place, label, file)?;
    }
    Ok(())
}

/// Adds one claim.
fn add_claim(
    claims: &mut Vec<Claim>,
    place: usize,
    label: &Text,
    file: &Shared<FileRef>,
) -> Result<(), AllocError>
    ensures { OnOk result (claims.new.items
        ≡ claims.old.items ++ claim_on place label.now file.now ∷ []) }
{
    let path = file.get().path.text().share()?;
    let label = label.share()?;
    push_last(claims, Claim { path, label, place })
}
