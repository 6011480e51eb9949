//! The instances of providers that targets offer.
ghost use Rattle.std.specs.Prelude.{◌≡◌, Ok, Err, Some, None, option_map};
ghost use Rattle.std.specs.Prelude.{option_copied};
ghost use Rattle.values.specs.Seeing.{seen, item_value};
ghost use Rattle.values.specs.Shape.{value_of};
ghost use Rattle.operations.specs.States.{GivesKind};
ghost use Rattle.contexts.specs.Offered.{instance_of, provider_in, item};
ghost use Rattle.contexts.specs.Offered.{offers};

use crate::dependencies::Dependencies;
use analysis::is_of;
use heap::Heap;
use operands::Operand;
use values::{Frozen, Item, Kind, LeafRef, Provider, Seen};

/// The instance of a provider that the target at a place offers, where it lies.
///
/// # Errors
///
/// `type`, where the value is no provider; `key`, where the target doesn't offer it.
pub fn item<'a, 'b>(
    heap: &Heap,
    dependencies: &'a Dependencies<'b>,
    place: usize,
    provider: Item<'_>,
) -> Result<Operand<'a>, Kind>
    ensures { GivesKind (item dependencies.now heap.now place (item_value provider.entry)) result }
{
    let Some(provider) = provider_of(&heap.see_item(provider)) else {
        return Err(Kind::Wrong);
    };
    match lent_instance(dependencies.instances(place), provider) {
        Some(instance) => Ok(instance),
        None => Err(Kind::Key),
    }
}

/// Whether the target at a place offers a provider.
///
/// # Errors
///
/// `type`, where the value is no provider.
pub fn offers(
    heap: &Heap,
    dependencies: &Dependencies<'_>,
    place: usize,
    provider: Item<'_>,
) -> Result<bool, Kind>
    ensures { GivesKind (offers dependencies.now heap.now place (item_value provider.entry))
        result }
{
    let Some(provider) = provider_of(&heap.see_item(provider)) else {
        return Err(Kind::Wrong);
    };
    Ok(analysis::offers(dependencies.instances(place), provider))
}

/// The provider that a value is, if it is one.
fn provider_of<'a>(value: &Seen<'a, '_>) -> Option<&'a Provider>
    ensures { option_copied result ≡ provider_in (seen value.now) }
{
    match value {
        Seen::Leaf(LeafRef::Provider(provider)) => Some(provider.get()),
        _ => None,
    }
}

/// An instance that is among these, where it lies.
fn lent_instance<'a>(instances: &'a [Frozen], provider: &Provider) -> Option<Operand<'a>>
    ensures { result ≡ option_map value_of (instance_of provider.now instances.now) }
{
    match instance_of(instances, provider) {
        Some(instance) => Some(Operand::lent(instance.item())),
        None => None,
    }
}

/// The first instance of a provider.
pub(crate) fn instance_of<'a>(instances: &'a [Frozen], provider: &Provider) -> Option<&'a Frozen>
    ensures { option_copied result ≡ instance_of provider.now instances.now }
{
    for instance in instances {
        if is_of(instance, provider) {
            return Some(instance);
        }
    }
    None
}
