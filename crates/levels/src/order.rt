//! Orders of numbered things by a key.
ghost use Rattle.std.specs.Prelude.{◌≡◌, map, IfOk};
ghost use Rattle.levels.specs.Levels.{IsOrderBy, AreKeyed};

use std::alloc::{AllocError, Global};

/// Each key with its place.
fn keyed(alloc: Global, keys: &[usize]) -> Result<Vec<(usize, usize)>, AllocError>
    ensures { IfOk result (λ v. AreKeyed keys.now v.items) }
{
    let mut pairs = Vec::with_capacity(alloc, keys.len())?;
    for (n, key) in keys.iter().enumerate() {
        pairs.push((*key, n))?;
    }
    Ok(pairs)
}

/// The places of these pairs.
fn places(alloc: Global, pairs: &[(usize, usize)]) -> Result<Vec<usize>, AllocError>
    ensures { IfOk result (λ v. v.items ≡ map (λ p. p.1) pairs.now) }
{
    let mut places = Vec::with_capacity(alloc, pairs.len())?;
    for pair in pairs {
        places.push(pair.1)?;
    }
    Ok(places)
}

/// The numbers from 0, one a key, in ascending order of their keys.
///
/// # Errors
///
/// `AllocError` where memory was refused.
pub fn order_by(alloc: Global, keys: &[usize]) -> Result<Vec<usize>, AllocError>
    ensures { IfOk result (λ v. IsOrderBy keys.now v.items) }
{
    let mut pairs = keyed(alloc, keys)?;
    pairs.sort_unstable();
    places(alloc, &pairs)
}
