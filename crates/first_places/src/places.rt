//! Names by their first places.
ghost use Rattle.std.specs.Prelude.{◌≡◌, ◌<◌, Some, IfOk, OnOk, bytes_eq, length};
ghost use Rattle.std.specs.List.{list_any};
ghost use Rattle.first_places.specs.Places.{ArePlaced, HasFirst, place_named};

use plain::Text;
use std::alloc::{AllocError, Global};
use std::collections::BTreeMap;
use std::marker::Model;

/// So many names, at most, are gone through rather than put in order.
pub(crate) const FEW: usize = 8;

/// Names, each found at its first place: few by going through them, many by order, so that who
/// chooses them can't make this slow. For few it takes no memory.
#[derive(Drop)]
pub struct FirstPlaces<'a> {
    names: &'a [Text],
    /// The first place of each, where there are many.
    places: BTreeMap<&'a str, usize>,
}

impl<'a> Model for FirstPlaces<'a> {
    ghost use Rattle.std.specs.Prelude.{ℕ, List, ◌<◌, length};
    ghost use Rattle.first_places.specs.Places.{ArePlaced};
    ghost use Rattle.first_places.specs.declared.places.TheConstants.{FEW};

    ghost Value = { List (List ℕ) };

    ghost view = { λ p. p.names.now };

    ghost invariant = { λ p. FEW < length p.names.now
        → ArePlaced (λ q. q.now) p.names.now p.places };
}

impl<'a> FirstPlaces<'a> {
    /// These names. Many are put in order, once.
    ///
    /// # Errors
    ///
    /// `AllocError` where memory was refused.
    pub fn new(alloc: Global, names: &'a [Text]) -> Result<FirstPlaces<'a>, AllocError>
        ensures { IfOk result (λ p. p ≡ names.now) }
    {
        let places = places_of_many(alloc, names)?;
        Ok(FirstPlaces { names, places })
    }

    /// The first place of a name, if it is among them.
    pub fn get(&self, name: &str) -> Option<usize>
        ensures { result ≡ place_named name.now self.now }
    {
        if self.names.len() <= FEW {
            return place_named(name, self.names);
        }
        match self.places.get(name) {
            Some(place) => Some(*place),
            None => None,
        }
    }

    /// Whether a name is among them.
    pub fn has(&self, name: &Text) -> bool
        ensures { result ≡ list_any (bytes_eq name.now) self.now }
    {
        self.get(name.as_str()).is_some()
    }
}

/// The first place of each name, where there are many; else nothing.
fn places_of_many<'a>(
    alloc: Global,
    names: &'a [Text],
) -> Result<BTreeMap<&'a str, usize>, AllocError>
    ensures { IfOk result (λ places. FEW < length names.now
        → ArePlaced (λ q. q.now) names.now places) }
{
    if names.len() <= FEW {
        return Ok(BTreeMap::new(alloc));
    }
    places(alloc, names)
}

/// The first place of each name.
fn places<'a>(alloc: Global, names: &'a [Text]) -> Result<BTreeMap<&'a str, usize>, AllocError>
    ensures { IfOk result (ArePlaced (λ q. q.now) names.now) }
{
    let mut places = BTreeMap::new(alloc);
    for (place, name) in names.iter().enumerate().rev() {
        put(name, place, &mut places)?;
    }
    Ok(places)
}

/// Puts the place of a name, in place of a later one.
fn put<'a>(
    name: &'a Text,
    place: usize,
    places: &mut BTreeMap<&'a str, usize>,
) -> Result<(), AllocError>
    ensures { OnOk result (HasFirst (λ q. q.now) name.now place places.old places.new) }
{
    places.insert(name.as_str(), place)?;
    Ok(())
}

/// The first place of a name among names, by going through them.
pub fn place_named(name: &str, names: &[Text]) -> Option<usize>
    ensures { result ≡ place_named name.now names.now }
{
    names.iter().position(|other| name == other.as_str())
}
