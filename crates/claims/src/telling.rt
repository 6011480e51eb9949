//! How the actions of a list are told: each alone, or equal ones together.
ghost use Rattle.std.specs.Prelude.{◌≡◌, None, IfOk, map, option_copied, slice_index_or};
ghost use Rattle.claims.specs.Tellings.{alone, is_first, telling_by, tellings_from};

use crate::clashes::leader_at;
use crate::owned::Owned;
use crate::sets::Shared;
use actions::Words;
use plain::Text;
use std::alloc::{AllocError, Global};

/// How an action is told.
#[derive(Drop)]
pub enum Telling {
    /// By itself: it isn't shared.
    Alone,
    /// For all its owners, whose labels these are.
    Owners(Words),
    /// Where the least of its owners is told.
    Elsewhere,
}

/// Whether a text is the first of these.
fn is_first(text: &Text, texts: &[Text]) -> bool
    ensures { result ≡ is_first text.now texts.now }
{
    match texts.first() {
        Some(first) => *text == *first,
        None => false,
    }
}

/// Other names of texts.
fn shares(alloc: Global, texts: &[Text]) -> Result<Words, AllocError>
    ensures { IfOk result (λ w. w ≡ texts.now) }
{
    let mut shares = Words::new(alloc);
    for text in texts {
        shares.push(text.share()?)?;
    }
    Ok(shares)
}

/// The set of a leader, if it has one.
fn set_at(sets: &[Option<Shared>], leader: usize) -> Option<&Shared>
    ensures { option_copied result ≡ slice_index_or sets.now leader None }
{
    match sets.get(leader) {
        Some(set) => set.as_ref(),
        None => None,
    }
}

/// How an action of this owner is told, where this is its set.
fn telling_by(alloc: Global, label: &Text, set: Option<&Shared>) -> Result<Telling, AllocError>
    ensures { IfOk result (λ t. t ≡ telling_by (option_copied set.entry) label.now) }
{
    let Some(shared) = set else {
        return Ok(Telling::Alone);
    };
    let owners = shared.owners.as_slice();
    if !is_first(label, owners) {
        return Ok(Telling::Elsewhere);
    }
    Ok(Telling::Owners(shares(alloc, owners)?))
}

/// Each action is told alone.
pub(crate) fn all_alone(alloc: Global, owned: &[Owned<'_>]) -> Result<Vec<Telling>, AllocError>
    ensures { IfOk result (λ v. v.items ≡ map alone owned.now) }
{
    let mut tellings = Vec::with_capacity(alloc, owned.len())?;
    for _one in owned {
        tellings.push(Telling::Alone)?;
    }
    Ok(tellings)
}

/// How each action is told.
pub(crate) fn tellings(
    alloc: Global,
    owned: &[Owned<'_>],
    leaders: &[usize],
    sets: &[Option<Shared>],
) -> Result<Vec<Telling>, AllocError>
    ensures { IfOk result (λ v. v.items ≡ tellings_from leaders.now sets.now 0 owned.now) }
{
    let mut tellings = Vec::new(alloc);
    for (place, one) in owned.iter().enumerate() {
        let set = set_at(sets, leader_at(leaders, place));
        tellings.push(telling_by(alloc, one.label(), set)?)?;
    }
    Ok(tellings)
}
