//! What a module hands on, under the names that were given.
ghost use Rattle.std.specs.Prelude.{◌≡◌, ◌++◌, ◌∷◌, [], IfOk, OnOk, map};
ghost use Rattle.values.specs.Shape.{value_of};
ghost use Rattle.evaluation.specs.Naming.{named, slot_named};

use crate::naming::Naming;
use crate::renaming::{rename, rename_fields};
use evaluation::{FunctionDefaults, Globals, ModuleDefaults};
use std::alloc::{AllocError, Global};
use targets::Sequence;
use values::{Frozen, Value};

/// The globals.
pub(crate) fn named_globals(
    alloc: Global,
    naming: &Naming,
    globals: &[Option<Frozen>],
) -> Result<Globals, AllocError>
    ensures { IfOk result (λ g. g ≡ map (slot_named naming.now) globals.now) }
{
    let parts = rename_fields(alloc, naming, globals)?;
    Ok(Globals::of(parts.items))
}

/// A default, as a value.
fn named_value(alloc: Global, naming: &Naming, tree: &Frozen) -> Result<Value, AllocError>
    ensures { IfOk result (λ v. v ≡ value_of (named naming.now tree.now)) }
{
    match rename(alloc, naming, tree)? {
        Some(new) => new.to_value(),
        None => tree.to_value(),
    }
}

/// Puts a default last, as a value.
fn put_named(
    alloc: Global,
    naming: &Naming,
    items: &mut FunctionDefaults,
    tree: &Frozen,
) -> Result<(), AllocError>
    ensures { OnOk result
        (items.new ≡ items.old ++ value_of (named naming.now tree.now) ∷ []) }
{
    let value = named_value(alloc, naming, tree)?;
    items.push(value)?;
    Ok(())
}

/// The defaults of a function.
fn named_items(
    alloc: Global,
    naming: &Naming,
    trees: &[Frozen],
) -> Result<FunctionDefaults, AllocError>
    ensures { IfOk result (λ v. v ≡ map (λ t. value_of (named naming.now t)) trees.now) }
{
    let mut items = FunctionDefaults::with_capacity(alloc, trees.len())?;
    for tree in trees {
        put_named(alloc, naming, &mut items, tree)?;
    }
    Ok(items)
}

/// The defaults of all functions, by number.
pub(crate) fn named_defaults(
    alloc: Global,
    naming: &Naming,
    defaults: &[Sequence<Frozen>],
) -> Result<ModuleDefaults, AllocError>
    ensures { IfOk result
        (λ d. d ≡ map (map (λ t. value_of (named naming.now t))) defaults.now) }
{
    let mut all = ModuleDefaults::new(alloc);
    for trees in defaults {
        let items = named_items(alloc, naming, trees.as_slice())?;
        all.push(items)?;
    }
    Ok(all)
}
