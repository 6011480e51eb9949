//! Providers whose instances are timed.
use first_places::PlacedNames;
use plain::{Shared, Text};
use std::alloc::{AllocError, Global};
use values::{ExportName, Exported, MadeId, Names, Provider, ProviderRef};

/// The global `P` of a module.
fn exported(alloc: Global) -> Result<ProviderRef, AllocError> {
    let path = Text::new(alloc, "a/f.bzl")?;
    let name = ExportName::Global(Text::new(alloc, "P")?);
    Ok(ProviderRef::Exported(Exported { path, name }))
}

/// The names of fields.
fn names(alloc: Global, fields: &[&str]) -> Result<PlacedNames, AllocError> {
    let mut names = Names::new(alloc);
    for field in fields {
        names.push(Text::new(alloc, field)?)?;
    }
    names.placed(alloc)
}

/// A provider of these fields.
pub fn provider(alloc: Global, fields: &[&str]) -> Result<Shared<Provider>, AllocError> {
    let fields = names(alloc, fields)?;
    let name = exported(alloc)?;
    let id = Some(MadeId {
        module: 0,
        number: 1,
    });
    Shared::new(alloc, Provider { id, name, fields })
}
