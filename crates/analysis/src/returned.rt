//! What an implementation returns.
ghost use Rattle.std.specs.Prelude.{◌≡◌, ◌++◌, ◌∷◌, [], List, true, false, IfOk};
ghost use Rattle.values.specs.View.{FrozenTree};
ghost use Rattle.targets.specs.Steps.{are_instances};
ghost use Rattle.analysis.specs.Returned.{numbers, AreReturned};

use crate::instances::provider_of;
use std::alloc::{AllocError, Global};
use std::collections::BTreeSet;
use values::{Frozen, Provider};

/// The numbers by which a provider is told from others: that of the module that made it, and its
/// own there. `DefaultInfo`, which no module makes, has none.
pub(crate) fn numbers(provider: &Provider) -> Option<(u32, u32)>
    ensures { result ≡ numbers provider.now }
{
    match provider.id {
        Some(id) => Some((id.module, id.number)),
        None => None,
    }
}

/// Whether the values are instances of different providers.
///
/// Providers are found by order, so who returns many can't make this slow.
pub(crate) fn are_instances(alloc: Global, values: &[Frozen]) -> Result<bool, AllocError>
    ensures { IfOk result (λ b. b ≡ are_instances values.now) }
{
    match values {
        [] => Ok(true),
        [value] => Ok(provider_of(value).is_some()),
        _ => are_different(alloc, values),
    }
}

/// The same, of any number of values.
fn are_different(alloc: Global, values: &[Frozen]) -> Result<bool, AllocError>
    ensures { IfOk result (λ b. b ≡ are_instances values.now) }
{
    let mut seen = BTreeSet::new(alloc);
    for value in values {
        if !is_new(value, &mut seen)? {
            return Ok(false);
        }
    }
    Ok(true)
}

/// Whether a value is an instance of a provider that wasn't seen; it is seen then.
fn is_new(value: &Frozen, seen: &mut BTreeSet<Option<(u32, u32)>>) -> Result<bool, AllocError>
    ensures { IfOk result (λ b. (ts : List FrozenTree) → AreReturned ts seen.old
        → (b ≡ true → AreReturned (ts ++ value.now ∷ []) seen.new)
        × (b ≡ false → (us : List FrozenTree) → are_instances (ts ++ value.now ∷ us) ≡ false)) }
{
    match provider_of(value) {
        Some(provider) => Ok(seen.insert(numbers(provider))?),
        None => Ok(false),
    }
}
