//! The providers that values are instances of.
ghost use Rattle.std.specs.Prelude.{◌≡◌, ◌<◌, ◌++◌, ◌∷◌, [], List, IfOk, OnOk, length};
ghost use Rattle.values.specs.View.{FrozenTree};
ghost use Rattle.targets.specs.Checks.{offers};
ghost use Rattle.analysis.specs.Returned.{HaveNumbers};

use crate::instances::{offers, provider_of};
use crate::returned::numbers;
use std::alloc::{AllocError, Global};
use std::collections::BTreeSet;
use std::marker::Model;
use values::{Frozen, Provider};

/// So many values, at most, are gone through rather than put in order.
const FEW: usize = 8;

/// Values, among which instances are found by their providers: few by going through them, many by
/// order, so that who makes many can't make this slow. For few it takes no memory.
#[derive(Drop)]
pub(crate) struct Offered<'a> {
    values: &'a [Frozen],
    /// The numbers of their providers, where there are many.
    numbers: BTreeSet<Option<(u32, u32)>>,
}

impl<'a> Model for Offered<'a> {
    ghost use Rattle.std.specs.Prelude.{◌<◌, List, length};
    ghost use Rattle.values.specs.View.{FrozenTree};
    ghost use Rattle.analysis.specs.Returned.{HaveNumbers};
    ghost use Rattle.analysis.specs.declared.offered.TheConstants.{FEW};

    ghost Value = { List FrozenTree };

    ghost use Rattle.targets.specs.OutcomeCodes.{trees_code};

    ghost coded = { trees_code };

    ghost view = { λ o. o.values.now };

    ghost invariant = { λ o. FEW < length o.values.now → HaveNumbers o.values.now o.numbers };
}

impl<'a> Offered<'a> {
    /// These values.
    pub(crate) fn new(alloc: Global, values: &'a [Frozen]) -> Result<Offered<'a>, AllocError>
        ensures { IfOk result (λ o. o ≡ values.now) }
    {
        let numbers = numbers_of_many(alloc, values)?;
        Ok(Offered { values, numbers })
    }

    /// Whether one of them is an instance of a provider.
    pub(crate) fn has(&self, provider: &Provider) -> bool
        ensures { result ≡ offers self.now provider.now }
    {
        if self.values.len() <= FEW {
            return offers(self.values, provider);
        }
        self.numbers.contains(&numbers(provider))
    }
}

/// The numbers of the providers of values, where there are many; else nothing.
fn numbers_of_many(
    alloc: Global,
    values: &[Frozen],
) -> Result<BTreeSet<Option<(u32, u32)>>, AllocError>
    ensures { IfOk result (λ seen. FEW < length values.now → HaveNumbers values.now seen) }
{
    if values.len() <= FEW {
        return Ok(BTreeSet::new(alloc));
    }
    numbers_of(alloc, values)
}

/// The numbers of the providers of values.
fn numbers_of(alloc: Global, values: &[Frozen]) -> Result<BTreeSet<Option<(u32, u32)>>, AllocError>
    ensures { IfOk result (λ seen. HaveNumbers values.now seen) }
{
    let mut seen = BTreeSet::new(alloc);
    for value in values {
        note(value, &mut seen)?;
    }
    Ok(seen)
}

/// Notes the numbers of the provider of a value, if it is an instance.
fn note(value: &Frozen, seen: &mut BTreeSet<Option<(u32, u32)>>) -> Result<(), AllocError>
    ensures { OnOk result ((ts : List FrozenTree) → HaveNumbers ts seen.old
        → HaveNumbers (ts ++ value.now ∷ []) seen.new) }
{
    match provider_of(value) {
        Some(provider) => {
            seen.insert(numbers(provider))?;
            Ok(())
        }
        None => Ok(()),
    }
}
