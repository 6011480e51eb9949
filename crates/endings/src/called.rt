//! Providers and rules under the names that they were given.
ghost use Rattle.std.specs.Prelude.{◌≡◌, IfOk, Some, option_copied, slice_get, unwrap_or};
ghost use Rattle.std.specs.Option.{option_flatten};
ghost use Rattle.values.specs.Tree.{leaf};
ghost use Rattle.evaluation.specs.Naming.{exported_as, leaf_named, provider_named, rule_named};
ghost use Rattle.evaluation.specs.Naming.{with_provider_name, with_rule_name};

use crate::naming::Naming;
use first_places::PlacedNames;
use plain::{Shared, Text};
use std::alloc::{AllocError, Global};
use values::{ExportName, Exported, Frozen, Leaf, Names, Provider, ProviderRef, RuleRef};

/// The name of what has this number, if it was given one.
fn name_at(names: &[Option<Text>], number: u32) -> Option<&Text>
    ensures { option_copied result ≡ option_flatten (slice_get names.now number) }
{
    match names.get(number as usize) {
        Some(Some(name)) => Some(name),
        _ => None,
    }
}

/// The same names.
fn share_names(alloc: Global, names: &PlacedNames) -> Result<PlacedNames, AllocError>
    ensures { IfOk result (λ n. n ≡ names.now) }
{
    let mut shared = Names::new(alloc);
    for name in names.as_slice() {
        shared.push(name.share()?)?;
    }
    shared.placed(alloc)
}

impl Naming {
    /// What a global is called outside of the module.
    fn exported(&self, name: &Text) -> Result<Exported, AllocError>
        ensures { IfOk result (λ e. e ≡ exported_as self.now name.now) }
    {
        Ok(Exported {
            path: self.path.share()?,
            name: ExportName::Global(name.share()?),
        })
    }

    /// A provider under this name.
    fn provider_called(
        &self,
        alloc: Global,
        provider: &Provider,
        name: &Text,
    ) -> Result<Shared<Provider>, AllocError>
        ensures { IfOk result
            (λ p. p ≡ with_provider_name self.now provider.now (Some name.now)) }
    {
        let called = Provider {
            id: provider.id,
            name: ProviderRef::Exported(self.exported(name)?),
            fields: share_names(alloc, &provider.fields)?,
        };
        Shared::new(alloc, called)
    }

    /// A rule under this name.
    fn rule_called(
        &self,
        alloc: Global,
        rule: &RuleRef,
        name: &Text,
    ) -> Result<Shared<RuleRef>, AllocError>
        ensures { IfOk result (λ r. r ≡ with_rule_name self.now rule.now (Some name.now)) }
    {
        let called = RuleRef {
            id: rule.id,
            name: self.exported(name)?,
        };
        Shared::new(alloc, called)
    }

    /// A provider under the name that it was given; None where it keeps the one that it has.
    pub(crate) fn provider(
        &self,
        alloc: Global,
        provider: &Shared<Provider>,
    ) -> Result<Option<Shared<Provider>>, AllocError>
        ensures { IfOk result
            (λ o. unwrap_or o provider.now ≡ provider_named self.now provider.now) }
    {
        let Some(id) = provider.get().id else {
            return Ok(None);
        };
        if id.module != self.file {
            return Ok(None);
        }
        match name_at(self.providers.as_slice(), id.number) {
            Some(name) => Ok(Some(self.provider_called(alloc, provider.get(), name)?)),
            None => Ok(None),
        }
    }

    /// A rule under the name that it was given; None where it keeps the one that it has.
    fn rule(
        &self,
        alloc: Global,
        rule: &Shared<RuleRef>,
    ) -> Result<Option<Shared<RuleRef>>, AllocError>
        ensures { IfOk result (λ o. unwrap_or o rule.now ≡ rule_named self.now rule.now) }
    {
        let id = rule.get().id;
        if id.module != self.file {
            return Ok(None);
        }
        match name_at(self.rules.as_slice(), id.number) {
            Some(name) => Ok(Some(self.rule_called(alloc, rule.get(), name)?)),
            None => Ok(None),
        }
    }

    /// A frozen provider or rule under the name that it was given; None where nothing changes.
    pub(crate) fn leaf(&self, alloc: Global, value: &Leaf) -> Result<Option<Frozen>, AllocError>
        ensures { IfOk result
            (λ o. unwrap_or o (leaf value.now) ≡ leaf (leaf_named self.now value.now)) }
    {
        match value {
            Leaf::Provider(provider) => match self.provider(alloc, provider)? {
                Some(called) => Ok(Some(Frozen::of_leaf(Leaf::Provider(called)))),
                None => Ok(None),
            },
            Leaf::Rule(rule) => match self.rule(alloc, rule)? {
                Some(called) => Ok(Some(Frozen::of_leaf(Leaf::Rule(called)))),
                None => Ok(None),
            },
            _ => Ok(None),
        }
    }
}
