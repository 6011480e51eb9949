//! Whether names are among others.
ghost use Rattle.std.specs.Prelude.{◌≡◌, IfOk, bytes_eq};
ghost use Rattle.std.specs.List.{list_all, list_any};

use crate::places::{FEW, FirstPlaces};
use plain::Text;
use std::alloc::{AllocError, Global};

/// Whether a name is one of the others, by going through them.
fn is_among(name: &Text, others: &[Text]) -> bool
    ensures { result ≡ list_any (bytes_eq name.now) others.now }
{
    others.iter().any(|other| *name == *other)
}

/// Whether each name is one of the others, by going through them for each.
fn are_among_few(names: &[Text], others: &[Text]) -> bool
    ensures { result ≡ list_all (λ n. list_any (bytes_eq n) others.now) names.now }
{
    names.iter().all(|name| is_among(name, others))
}

/// Whether each name is one of the others, by a look for each.
fn are_found(names: &[Text], others: &FirstPlaces<'_>) -> bool
    ensures { result ≡ list_all (λ n. list_any (bytes_eq n) others.now) names.now }
{
    names.iter().all(|name| others.has(name))
}

/// Whether each name is one of the others. These are put in order where many names are looked for.
///
/// # Errors
///
/// `AllocError` where memory was refused.
pub fn are_among(alloc: Global, names: &[Text], others: &[Text]) -> Result<bool, AllocError>
    ensures { IfOk result (λ b. b ≡ list_all (λ n. list_any (bytes_eq n) others.now) names.now) }
{
    if names.len() <= FEW {
        return Ok(are_among_few(names, others));
    }
    let others = FirstPlaces::new(alloc, others)?;
    Ok(are_found(names, &others))
}
