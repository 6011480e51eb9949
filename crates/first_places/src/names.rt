//! Names that are kept, by their first places.
ghost use Rattle.std.specs.Prelude.{◌≡◌, ◌<◌, IfOk, OnOk, bytes_eq, length};
ghost use Rattle.std.specs.List.{list_any};
ghost use Rattle.first_places.specs.Places.{ArePlaced, HasFirst, place_named};

use crate::places::{FEW, place_named};
use plain::Text;
use std::alloc::{AllocError, Global};
use std::collections::BTreeMap;
use std::marker::Model;

/// Names that are kept in order, each found at its first place: few by going through them, many by
/// order, so that who chooses them can't make this slow.
#[derive(Drop)]
pub struct PlacedNames {
    names: Vec<Text>,
    /// The first place of each, where there are many.
    places: BTreeMap<Text, usize>,
}

impl Model for PlacedNames {
    ghost use Rattle.std.specs.Prelude.{ℕ, List, ◌<◌, length};
    ghost use Rattle.first_places.specs.Places.{ArePlaced};
    ghost use Rattle.first_places.specs.declared.places.TheConstants.{FEW};

    ghost Value = { List (List ℕ) };

    ghost view = { λ p. p.names.items };

    ghost invariant = { λ p. FEW < length p.names.items
        → ArePlaced (λ q. q) p.names.items p.places };
}

impl PlacedNames {
    /// These names. Many are put in order, once.
    ///
    /// # Errors
    ///
    /// `AllocError` where memory was refused.
    pub fn of(alloc: Global, names: Vec<Text>) -> Result<PlacedNames, AllocError>
        ensures { IfOk result (λ p. p ≡ names.items) }
    {
        let places = places_of_many(alloc, names.as_slice())?;
        Ok(PlacedNames { names, places })
    }

    /// All of them, in order.
    pub fn as_slice(&self) -> &[Text]
        ensures { result.now ≡ self.now }
    {
        self.names.as_slice()
    }

    /// The first place of a name, if it is among them.
    pub fn place(&self, name: &Text) -> Option<usize>
        ensures { result ≡ place_named name.now self.now }
    {
        if self.names.len() <= FEW {
            return place_named(name.as_str(), self.names.as_slice());
        }
        match self.places.get(name) {
            Some(place) => Some(*place),
            None => None,
        }
    }

    /// Whether a name is among them.
    pub fn has(&self, name: &Text) -> bool
        ensures { result ≡ list_any (bytes_eq name.now) self.now }
    {
        self.place(name).is_some()
    }
}

/// The first place of each name, where there are many; else nothing.
fn places_of_many(alloc: Global, names: &[Text]) -> Result<BTreeMap<Text, usize>, AllocError>
    ensures { IfOk result (λ places. FEW < length names.now
        → ArePlaced (λ q. q) names.now places) }
{
    if names.len() <= FEW {
        return Ok(BTreeMap::new(alloc));
    }
    places(alloc, names)
}

/// The first place of each name.
fn places(alloc: Global, names: &[Text]) -> Result<BTreeMap<Text, usize>, AllocError>
    ensures { IfOk result (ArePlaced (λ q. q) names.now) }
{
    let mut places = BTreeMap::new(alloc);
    for (place, name) in names.iter().enumerate().rev() {
        put(name, place, &mut places)?;
    }
    Ok(places)
}

/// Puts the place of a name, in place of a later one.
fn put(name: &Text, place: usize, places: &mut BTreeMap<Text, usize>) -> Result<(), AllocError>
    ensures { OnOk result (HasFirst (λ q. q) name.now place places.old places.new) }
{
    let own = name.share()?;
    places.insert(own, place)?;
    Ok(())
}
