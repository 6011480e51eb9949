//! The attributes of a rule, by their names, with their defaults.
ghost use Rattle.std.specs.Prelude.{◌≡◌, ◌<◌, Some, IfOk, length, slice_get};
ghost use Rattle.std.specs.List.{list_any};
ghost use Rattle.std.specs.Str.{bytes_eq};
ghost use Rattle.first_places.specs.Places.{place_named};
ghost use Rattle.targets.specs.Placed.{names_of, defaults_of};

use crate::defaults::default_of;
use crate::{AttributeValue, NamedAttribute, Sequence};
use first_places::PlacedNames;
use plain::Text;
use std::alloc::{AllocError, Global};
use std::marker::Model;

/// The attributes of a rule in the order of `attrs`, each found by its name. To a contract they are
/// a list.
#[derive(Drop)]
pub struct RuleAttributes {
    items: Sequence<NamedAttribute>,
    /// What a target has for each where nothing is given, made once.
    defaults: Sequence<AttributeValue>,
    /// Their names, each found at its first place.
    names: PlacedNames,
}

impl Model for RuleAttributes {
    ghost use Rattle.std.specs.Prelude.{◌≡◌, List};
    ghost use Rattle.targets.specs.declared.attributes.NamedAttribute.{NamedAttribute as Named};
    ghost use Rattle.targets.specs.Placed.{names_of, defaults_of};

    ghost Value = { List Named };

    ghost view = { λ a. a.items };

    ghost invariant = { λ a. (a.names ≡ names_of a.items)
        × (a.defaults ≡ defaults_of a.items) };
}

impl RuleAttributes {
    /// These attributes. Where their names are many they are put in order here, once; and their
    /// defaults are made.
    ///
    /// # Errors
    ///
    /// `AllocError` where memory was refused.
    pub fn new(alloc: Global, items: Sequence<NamedAttribute>) -> Result<RuleAttributes, AllocError>
        ensures { IfOk result (λ a. a ≡ items) }
    {
        let defaults = defaults(alloc, items.as_slice())?;
        let names = names(alloc, items.as_slice())?;
        Ok(RuleAttributes {
            items,
            defaults,
            names,
        })
    }

    /// All of them, in order.
    pub fn as_slice(&self) -> &[NamedAttribute]
        ensures { result.now ≡ self.now }
    {
        self.items.as_slice()
    }

    /// How many there are.
    pub fn len(&self) -> usize
        ensures { result ≡ length self.now }
    {
        self.items.len()
    }

    /// The attribute at a place.
    pub fn at(&self, place: usize) -> &NamedAttribute
        requires { place < length self.now }
        ensures { slice_get self.now place ≡ Some result.now }
    {
        attribute_at(self.items.as_slice(), place)
    }

    /// What a target has for the attribute at a place where nothing is given.
    pub fn default_at(&self, place: usize) -> &AttributeValue
        requires { place < length self.now }
        ensures { slice_get (defaults_of self.now) place ≡ Some result.now }
    {
        value_at(self.defaults.as_slice(), place)
    }

    /// The place of the first attribute of a name.
    pub fn place(&self, name: &Text) -> Option<usize>
        ensures { result ≡ place_named name.now (names_of self.now) }
    {
        self.names.place(name)
    }

    /// Whether one of them has this name.
    pub fn has(&self, name: &Text) -> bool
        ensures { result ≡ list_any (λ a. bytes_eq name.now a.name) self.now }
    {
        self.place(name).is_some()
    }
}

/// What a target has for each attribute where nothing is given.
fn defaults(alloc: Global, items: &[NamedAttribute]) -> Result<Sequence<AttributeValue>, AllocError>
    ensures { IfOk result (λ vs. vs ≡ defaults_of items.now) }
{
    let mut defaults = Sequence::with_capacity(alloc, items.len())?;
    for item in items {
        defaults.push(default_of(alloc, item.attribute.get())?)?;
    }
    Ok(defaults)
}

/// The name of each.
fn names(alloc: Global, items: &[NamedAttribute]) -> Result<PlacedNames, AllocError>
    ensures { IfOk result (λ names. names ≡ names_of items.now) }
{
    let mut names = Vec::with_capacity(alloc, items.len())?;
    for item in items {
        names.push(item.name.share()?)?;
    }
    PlacedNames::of(alloc, names)
}

/// The attribute at a place.
fn attribute_at(items: &[NamedAttribute], place: usize) -> &NamedAttribute
    requires { place < length items.now }
    ensures { slice_get items.now place ≡ Some result.now }
{
    &items[place]
}

/// The value at a place.
fn value_at(values: &[AttributeValue], place: usize) -> &AttributeValue
    requires { place < length values.now }
    ensures { slice_get values.now place ≡ Some result.now }
{
    &values[place]
}
