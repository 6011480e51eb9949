//! The attributes of a rule.
ghost use Rattle.std.specs.Prelude.{◌≡◌, IfOk, option_copied, option_and_then};
ghost use Rattle.values.specs.Seeing.{seen, table_entries, item_value};
ghost use Rattle.targets.specs.Attributes.{is_attribute, are_attributes};
ghost use Rattle.targets.specs.RuleCalls.{each_of};
ghost use Rattle.declaring.specs.RuleMaking.{declaration, declaration_in};
ghost use Rattle.declaring.specs.RuleMaking.{attribute_entry};
ghost use Rattle.declaring.specs.RuleMaking.{attributes_shown, attributes_in, if_attributes};

use crate::known::Attributes;
use crate::names::name_of;
use operands::Operand;
use operations::State;
use plain::{Shared, Text};
use std::alloc::{AllocError, Global};
use targets::{Attribute, Declarations, NamedAttribute, Sequence, is_private};
use values::{AttributeRef, Item, Key, LeafRef, Seen, Table, Value};

/// What a module sees of declarations while it is evaluated: its own, and those of the modules
/// before it.
#[derive(Drop)]
struct Known<'a, 's, A> {
    linked: &'a A,
    state: &'a State<'s>,
    declared: &'a Declarations,
}

/// The attributes that `attrs` says: none where it is missing, and None where it is of another
/// type.
pub(crate) fn attributes_in<A: Attributes>(
    alloc: Global,
    linked: &A,
    state: &State,
    declared: &Declarations,
    value: Option<&Operand<'_>>,
) -> Result<Option<Sequence<NamedAttribute>>, AllocError>
    ensures { IfOk result (λ o. o ≡ attributes_in (A.declared linked.now) state.now declared.now
        (option_copied value.entry)) }
{
    let Some(value) = value else {
        return Ok(Some(Sequence::new(alloc)));
    };
    let known = Known {
        linked,
        state,
        declared,
    };
    match state.heap.see_item(value.item()) {
        Seen::Dict(entries) => attributes_shown(alloc, &known, entries),
        _ => Ok(None),
    }
}

/// The attributes of a dict from names to declarations.
fn attributes_shown<A: Attributes>(
    alloc: Global,
    known: &Known<'_, '_, A>,
    entries: Table<'_, '_>,
) -> Result<Option<Sequence<NamedAttribute>>, AllocError>
    ensures { IfOk result (λ o. o ≡ option_and_then (if_attributes
        (A.declared known.now.linked.now) known.now.state.now known.now.declared.now)
        (each_of (attribute_entry (A.declared known.now.linked.now) known.now.state.now
        known.now.declared.now) (table_entries entries.entry))) }
{
    let Some(named) = named_attributes(alloc, known, entries)? else {
        return Ok(None);
    };
    if !are_attributes(named.as_slice()) {
        return Ok(None);
    }
    Ok(Some(named))
}

/// Each entry as an attribute.
fn named_attributes<A: Attributes>(
    alloc: Global,
    known: &Known<'_, '_, A>,
    entries: Table<'_, '_>,
) -> Result<Option<Sequence<NamedAttribute>>, AllocError>
    ensures { IfOk result (λ o. o ≡ each_of (attribute_entry (A.declared known.now.linked.now)
        known.now.state.now known.now.declared.now) (table_entries entries.entry)) }
{
    let mut named = Sequence::new(alloc);
    for (key, value) in entries {
        match attribute_entry(known, key, value)? {
            Some(attribute) => named.push(attribute)?,
            None => return Ok(None),
        }
    }
    Ok(Some(named))
}

/// An entry as an attribute: a name, and a declaration.
fn attribute_entry<A: Attributes>(
    known: &Known<'_, '_, A>,
    key: &Key,
    value: Item<'_>,
) -> Result<Option<NamedAttribute>, AllocError>
    ensures { IfOk result (λ o. o ≡ attribute_entry (A.declared known.now.linked.now)
        known.now.state.now known.now.declared.now (key.now, item_value value.entry)) }
{
    let Some(name) = name_of(&Seen::Key(key)) else {
        return Ok(None);
    };
    match declaration_in(known, &known.state.heap.see_item(value)) {
        Some(attribute) => Ok(Some(named_attribute(name, attribute)?)),
        None => Ok(None),
    }
}

/// A declaration under a name: a count more of each.
fn named_attribute(name: &Text, attribute: &Shared<Attribute>) -> Result<NamedAttribute, AllocError>
    ensures { IfOk result (λ n. n ≡ record { name = name.now; attribute = attribute.now }) }
{
    let name = name.share()?;
    let attribute = attribute.share()?;
    Ok(NamedAttribute { name, attribute })
}

/// The declaration that a value names.
fn declaration_in<'a, A: Attributes>(
    known: &Known<'a, '_, A>,
    value: &Seen<'_, '_>,
) -> Option<&'a Shared<Attribute>>
    ensures { option_copied result ≡ declaration_in (A.declared known.now.linked.now)
        known.now.state.now known.now.declared.now (seen value.now) }
{
    match value {
        Seen::Leaf(LeafRef::Attribute(attribute)) => declaration(known, attribute.get()),
        _ => None,
    }
}

/// A declaration of this module or of another one.
fn declaration<'a, A: Attributes>(
    known: &Known<'a, '_, A>,
    attribute: &AttributeRef,
) -> Option<&'a Shared<Attribute>>
    ensures { option_copied result ≡ declaration (A.declared known.now.linked.now)
        known.now.state.now known.now.declared.now attribute.now }
{
    if attribute.path == known.state.owner {
        known
            .declared
            .attributes
            .as_slice()
            .get(attribute.number as usize)
    } else {
        known.linked.attribute(&attribute.path, attribute.number)
    }
}

/// Whether a rule may have all of these attributes.
fn are_attributes(named: &[NamedAttribute]) -> bool
    ensures { result ≡ are_attributes named.now }
{
    for attribute in named {
        if !is_attribute(attribute) {
            return false;
        }
    }
    true
}

/// Whether a rule may have an attribute of this name: `name` it has already, and a private one has
/// a default that was given.
fn is_attribute(named: &NamedAttribute) -> bool
    ensures { result ≡ is_attribute named.now }
{
    if named.name.as_str() == "name" {
        return false;
    }
    !is_private(named.name.as_str()) || named.attribute.get().default.is_some()
}
