//! The parts of frozen values, of which some are new.
ghost use Rattle.std.specs.Prelude.{◌≡◌, ◌≤◌, ◌++◌, ◌∷◌, ◌||◌, [], IfOk, OnOk, Some, None};
ghost use Rattle.std.specs.Option.{option_or};
ghost use Rattle.std.specs.Prelude.{is_some, length, min, take, unwrap_or};
ghost use Rattle.std.specs.Prelude.{if◌then◌else◌};
ghost use Rattle.values.specs.Tree.{dict, instance, list, pairs, slots, trees, tuple};

use indexmap::IndexSet;
use plain::Shared;
use std::alloc::{AllocError, Global};
use values::{Branch, Frozen, Key, Provider};

/// Parts of a frozen value, in order, and whether one of them is new.
#[derive(Drop)]
pub(crate) struct Parts<T> {
    pub(crate) items: Vec<T>,
    pub(crate) changed: bool,
}

/// Whether something has changed already, or is new.
pub(crate) fn or_new(changed: bool, new: &Option<Frozen>) -> bool
    ensures { result ≡ (changed || is_some new.now) }
{
    changed || new.is_some()
}

/// The values that have a key at their place.
pub(crate) fn paired<'a>(keys: &IndexSet<Key>, values: &'a [Frozen]) -> &'a [Frozen]
    ensures { result.now ≡ take (min (length keys.now.keys) (length values.now)) values.now }
{
    &values[..keys.len().min(values.len())]
}

/// Puts a part last: the new one, else another name of the old one.
pub(crate) fn put(
    items: &mut Vec<Frozen>,
    old: &Frozen,
    new: Option<Frozen>,
) -> Result<(), AllocError>
    ensures { OnOk result (items.new.items ≡ items.old.items ++ unwrap_or new old.now ∷ []) }
{
    let part = match new {
        Some(part) => part,
        None => old.share()?,
    };
    items.push(part)?;
    Ok(())
}

/// Another name of the value of a field, if it was given.
fn share_slot(slot: &Option<Frozen>) -> Result<Option<Frozen>, AllocError>
    ensures { IfOk result (λ s. s ≡ slot.now) }
{
    match slot {
        Some(tree) => Ok(Some(tree.share()?)),
        None => Ok(None),
    }
}

/// Puts the value of a field last: the new one, else another name of the old one.
pub(crate) fn put_slot(
    items: &mut Vec<Option<Frozen>>,
    old: &Option<Frozen>,
    new: Option<Frozen>,
) -> Result<(), AllocError>
    ensures { OnOk result (items.new.items ≡ items.old.items ++ option_or new old.now ∷ []) }
{
    let slot = match new {
        Some(tree) => Some(tree),
        None => share_slot(old)?,
    };
    items.push(slot)?;
    Ok(())
}

/// The first of these keys.
fn first_keys(
    alloc: Global,
    keys: &IndexSet<Key>,
    count: usize,
) -> Result<IndexSet<Key>, AllocError>
    requires { count ≤ length keys.now.keys }
    ensures { IfOk result (λ s. s.keys ≡ take count keys.now.keys) }
{
    let mut first = IndexSet::with_capacity(alloc, count)?;
    for key in keys.as_slice().iter().take(count) {
        first.insert(key.share()?)?;
    }
    Ok(first)
}

/// A list of new parts, if one of them is new.
pub(crate) fn new_list(alloc: Global, parts: Parts<Frozen>) -> Result<Option<Branch>, AllocError>
    ensures { IfOk result
        (λ o. o ≡ (if parts.changed then Some (list (trees parts.items.items)) else None)) }
{
    if !parts.changed {
        return Ok(None);
    }
    Ok(Some(Branch::list(alloc, parts.items)?))
}

/// A tuple of new parts, if one of them is new.
pub(crate) fn new_tuple(alloc: Global, parts: Parts<Frozen>) -> Result<Option<Branch>, AllocError>
    ensures { IfOk result
        (λ o. o ≡ (if parts.changed then Some (tuple (trees parts.items.items)) else None)) }
{
    if !parts.changed {
        return Ok(None);
    }
    Ok(Some(Branch::tuple(alloc, parts.items)?))
}

/// A dict of the first of these keys with new values, if one of them is new.
pub(crate) fn new_dict(
    alloc: Global,
    keys: &IndexSet<Key>,
    parts: Parts<Frozen>,
) -> Result<Option<Branch>, AllocError>
    requires { length parts.items.items ≤ length keys.now.keys }
    ensures { IfOk result (λ o. o ≡ (if parts.changed
        then Some (dict (pairs (take (length parts.items.items) keys.now.keys) parts.items.items))
        else None)) }
{
    if !parts.changed {
        return Ok(None);
    }
    let first = first_keys(alloc, keys, parts.items.len())?;
    Ok(Some(Branch::dict(alloc, first, parts.items)?))
}

/// Whether a provider or one of the parts of its instance is new.
fn is_new(maker: &Option<Shared<Provider>>, parts: &Parts<Option<Frozen>>) -> bool
    ensures { result ≡ (is_some maker.now || parts.now.changed) }
{
    maker.is_some() || parts.changed
}

/// An instance of a provider, or of the new one in its place, with new parts, if anything of it is
/// new.
pub(crate) fn new_instance(
    alloc: Global,
    provider: &Shared<Provider>,
    maker: Option<Shared<Provider>>,
    parts: Parts<Option<Frozen>>,
) -> Result<Option<Branch>, AllocError>
    ensures { IfOk result (λ o. o ≡ (if is_some maker || parts.changed
        then Some (instance (unwrap_or maker provider.now) (slots parts.items.items)) else None)) }
{
    if !is_new(&maker, &parts) {
        return Ok(None);
    }
    let maker = match maker {
        Some(maker) => maker,
        None => provider.share()?,
    };
    Ok(Some(Branch::instance(alloc, maker, parts.items)?))
}
