//! The provider that every file knows.
ghost use Rattle.std.specs.Prelude.{◌≡◌, ◌∷◌, [], IfOk, codes};
ghost use Rattle.leaves.specs.declared.leaf.Leaf.TheVariants as leaf;
ghost use Rattle.values.specs.declared.value.Value.TheVariants as held;
ghost use Rattle.operations.specs.Instances.{default_info};

use first_places::PlacedNames;
use plain::{Shared, Text};
use std::alloc::{AllocError, Global};
use values::{Leaf, Provider, ProviderRef, Value};

/// The provider `DefaultInfo`, which no module makes: made once, and lent to all who name it.
#[derive(Drop)]
pub struct DefaultInfo {
    provider: Shared<Provider>,
    value: Value,
    ghost is_default: { provider ≡ default_info },
    ghost is_its_value: { value ≡ held.Leaf (leaf.Provider default_info) },
}

impl DefaultInfo {
    /// That provider.
    ///
    /// # Errors
    ///
    /// `AllocError` where memory was refused.
    pub fn new(alloc: Global) -> Result<DefaultInfo, AllocError> {
        let provider = default_info(alloc)?;
        let named = provider.share()?;
        Ok(DefaultInfo {
            provider,
            value: Value::Leaf(Leaf::Provider(named)),
        })
    }

    /// The provider.
    pub fn provider(&self) -> &Shared<Provider>
        ensures { result.now ≡ default_info }
    {
        &self.provider
    }

    /// The provider, as a value.
    pub fn value(&self) -> &Value
        ensures { result.now ≡ held.Leaf (leaf.Provider default_info) }
    {
        &self.value
    }
}

/// A provider as `DefaultInfo` is.
fn default_info(alloc: Global) -> Result<Shared<Provider>, AllocError>
    ensures { IfOk result (λ p. p ≡ default_info) }
{
    let provider = Provider {
        id: None,
        name: ProviderRef::DefaultInfo,
        fields: files_alone(alloc)?,
    };
    Shared::new(alloc, provider)
}

/// The names of its one field.
fn files_alone(alloc: Global) -> Result<PlacedNames, AllocError>
    ensures { IfOk result (λ names. names ≡ codes "files" ∷ []) }
{
    let mut names = Vec::with_capacity(alloc, 1)?;
    names.push(Text::new(alloc, "files")?)?;
    PlacedNames::of(alloc, names)
}
