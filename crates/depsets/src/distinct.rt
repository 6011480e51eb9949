//! Items that lie elsewhere, each once.
ghost use Rattle.std.specs.Prelude.{◌≡◌, ◌<◌, [], Some, IfOk, OnOk, length, slice_get};
ghost use Rattle.depsets.specs.Keys.{has, keep};

use crate::Element;
use crate::digest::DigestedElement;
use indexmap::IndexSet;
use std::alloc::{AllocError, Global};
use std::hash::Hash;
use std::marker::Model;

/// Items that lie elsewhere, each once, in the order in which they were put.
///
/// No item is copied and no count is touched, so that several threads can list the same depset
/// beside each other.
#[derive(Drop)]
pub(crate) struct Distinct<'a, T: Eq + Hash> {
    items: IndexSet<&'a T>,
}

impl<'a, T: Eq + Hash> Model for Distinct<'a, T> {
    ghost use Rattle.std.specs.Prelude.{List, map};

    ghost Value = { List T };

    ghost view = { λ d. map (λ r. r.now) d.items.keys };
}

impl<'a, T: Eq + Hash> Distinct<'a, T> {
    /// No item, with memory for so many.
    pub(crate) fn with_room(alloc: Global, items: u32) -> Result<Self, AllocError>
        ensures { IfOk result (λ d. d ≡ []) }
    {
        let items = IndexSet::with_capacity(alloc, items as usize)?;
        Ok(Distinct { items })
    }

    /// Whether an equal item is among them.
    pub(crate) fn contains(&self, item: &T) -> bool
        ensures { result ≡ has T.eq self.now item.now }
    {
        self.items.contains(&item)
    }

    /// Puts an item last, if no equal one is among them.
    pub(crate) fn put(&mut self, item: &'a T) -> Result<(), AllocError>
        ensures { OnOk result (self.new ≡ keep T.eq self.old item.now) }
    {
        self.items.insert(item)?;
        Ok(())
    }

    /// How many there are.
    pub(crate) fn len(&self) -> usize
        ensures { result ≡ length self.now }
    {
        self.items.len()
    }

    /// The item at a place.
    pub(crate) fn at(&self, place: usize) -> &'a T
        requires { place < length self.now }
        ensures { slice_get self.now place ≡ Some result.now }
    {
        self.items.as_slice()[place]
    }
}

/// The elements of a listing, each once and where it lies.
#[derive(Drop)]
pub struct Elements<'a> {
    found: Found<'a>,
}

/// Where the elements of a listing are found.
#[derive(Drop)]
enum Found<'a> {
    /// They are the own elements of a depset.
    Own(&'a [DigestedElement]),
    /// A walk has put them together.
    Walked(Distinct<'a, DigestedElement>),
}

impl<'a> Model for Elements<'a> {
    ghost use Rattle.std.specs.Prelude.{List};
    ghost use Rattle.depsets.specs.declared.element.Element.{Element};
    ghost use Rattle.depsets.specs.Found.{elements_found};

    ghost Value = { List Element };

    ghost view = { λ e. elements_found e.found };
}

impl<'a> Elements<'a> {
    /// The own elements of a depset.
    pub(crate) fn own(own: &'a [DigestedElement]) -> Self
        ensures { result ≡ own.now }
    {
        Elements {
            found: Found::Own(own),
        }
    }

    /// These elements.
    pub(crate) fn of(found: Distinct<'a, DigestedElement>) -> Self
        ensures { result ≡ found.entry }
    {
        Elements {
            found: Found::Walked(found),
        }
    }

    /// How many there are.
    pub fn len(&self) -> usize
        ensures { result ≡ length self.now }
    {
        match &self.found {
            Found::Own(own) => own.len(),
            Found::Walked(found) => found.len(),
        }
    }

    /// The element at a place.
    pub fn at(&self, place: usize) -> &'a Element
        requires { place < length self.now }
        ensures { slice_get self.now place ≡ Some result.now }
    {
        match &self.found {
            Found::Own(own) => own_at(own, place),
            Found::Walked(found) => found.at(place).get(),
        }
    }
}

/// The own element of a depset at a place.
fn own_at(own: &[DigestedElement], place: usize) -> &Element
    requires { place < length own.now }
    ensures { slice_get own.now place ≡ Some result.now }
{
    own[place].get()
}
