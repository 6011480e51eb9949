//! Instances of providers.
ghost use Rattle.std.specs.Prelude.{◌≡◌, IfOk, option_copied};
ghost use Rattle.std.specs.List.{list_any};
ghost use Rattle.targets.specs.Checks.{provider_of, branch_provider, is_of, offers, offers_all};
ghost use Rattle.targets.specs.Checks.{offers_enough};

use crate::offered::Offered;
use plain::Shared;
use std::alloc::{AllocError, Global};
use targets::Sequence;
use values::{Branch, Frozen, Held, Node, Provider};

/// The provider that a value is an instance of, if it is one.
pub(crate) fn provider_of(value: &Frozen) -> Option<&Provider>
    ensures { option_copied result ≡ provider_of value.now }
{
    match value.held() {
        Held::Branch(branch) => branch_provider(branch),
        Held::Key(_) => None,
        Held::Leaf(_) => None,
    }
}

fn branch_provider(branch: &Branch) -> Option<&Provider>
    ensures { option_copied result ≡ branch_provider branch.now }
{
    match branch.node() {
        Node::Instance(provider, _) => Some(provider.get()),
        Node::List(_) => None,
        Node::Tuple(_) => None,
        Node::Dict(_, _) => None,
    }
}

/// Whether a value is an instance of a provider.
pub fn is_of(value: &Frozen, provider: &Provider) -> bool
    ensures { result ≡ is_of provider.now (provider_of value.now) }
{
    match provider_of(value) {
        Some(other) => provider.is_same(other),
        None => false,
    }
}

/// Whether one of the values is an instance of a provider.
pub fn offers(values: &[Frozen], provider: &Provider) -> bool
    ensures { result ≡ offers values.now provider.now }
{
    values.iter().any(|value| is_of(value, provider))
}

/// Whether the values have an instance of each of the providers.
fn offers_all(values: &Offered<'_>, providers: &[Shared<Provider>]) -> bool
    ensures { result ≡ offers_all values.now providers.now }
{
    providers.iter().all(|provider| values.has(provider.get()))
}

/// Whether the values have an instance of each of one of the lists.
fn offers_one_of(values: &Offered<'_>, lists: &[Sequence<Shared<Provider>>]) -> bool
    ensures { result ≡ list_any (offers_all values.now) lists.now }
{
    lists.iter().any(|list| offers_all(values, list.as_slice()))
}

/// The same, or there is no list.
pub(crate) fn offers_enough(
    alloc: Global,
    values: &[Frozen],
    lists: &[Sequence<Shared<Provider>>],
) -> Result<bool, AllocError>
    ensures { IfOk result (λ b. b ≡ offers_enough values.now lists.now) }
{
    if lists.is_empty() {
        return Ok(true);
    }
    let values = Offered::new(alloc, values)?;
    Ok(offers_one_of(&values, lists))
}
