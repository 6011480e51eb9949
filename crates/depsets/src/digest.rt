//! Ids and elements with their digests.
//!
//! A listing looks up each id and each element that it meets. Their texts are gone through once,
//! when a depset is made, and not at each listing that comes by.
ghost use Rattle.std.specs.Prelude.{◌≡◌, fold};
ghost use Rattle.std.specs.Hash as fed;
ghost use Rattle.std.specs.Hash.FoldHasher as folding;
ghost use Rattle.depsets.specs.Digests.{id_digest, element_digest, file_writes};

use crate::{Element, FileRef, Id};
use std::hash::{FoldHasher, Hash, Hasher};
use std::marker::Model;

/// An id with its digest. To a contract it is the id.
#[derive(Drop)]
pub(crate) struct DigestedId {
    id: Id,
    digest: u64,
}

impl Model for DigestedId {
    ghost use Rattle.std.specs.Prelude.{◌≡◌};
    ghost use Rattle.depsets.specs.declared.depset.Id.{Id};
    ghost use Rattle.depsets.specs.Digests.{id_digest};

    ghost Value = { Id };

    ghost view = { λ d. d.id };

    ghost invariant = { λ d. d.digest ≡ id_digest d.id };
}

impl DigestedId {
    /// The id, whose digest is worked out.
    pub(crate) fn new(id: Id) -> DigestedId
        ensures { result ≡ id }
    {
        let digest = id_digest(&id);
        DigestedId { id, digest }
    }

    /// The id.
    pub(crate) fn get(&self) -> &Id
        ensures { result.now ≡ self.now }
    {
        &self.id
    }
}

impl PartialEq for DigestedId {
    ghost use Rattle.depsets.specs.Listed.{same_id};
    ghost use Rattle.depsets.specs.Alike.{id_laws};
    ghost use Rattle.std.specs.Cmp.{partial_equiv_from_equiv};

    ghost eq = { same_id };

    ghost laws = { partial_equiv_from_equiv id_laws };

    fn eq(&self, other: &DigestedId) -> bool {
        self.id == other.id
    }
}

impl Eq for DigestedId {
    ghost use Rattle.depsets.specs.Alike.{id_laws};

    ghost laws = { id_laws };
}

impl Hash for DigestedId {
    ghost use Rattle.std.specs.Hash as fed;
    ghost use Rattle.depsets.specs.Digests.{id_digest};
    ghost use Rattle.depsets.specs.Alike.{ids_alike};

    ghost hash_input = { λ i. fed.u64 (id_digest i) };

    ghost respects_eq = { ids_alike };

    fn hash<H: Hasher>(&self, state: &mut H) {
        self.digest.hash(state)
    }
}

/// An element with its digest. To a contract it is the element.
#[derive(Drop)]
pub struct DigestedElement {
    element: Element,
    digest: u64,
}

impl Model for DigestedElement {
    ghost use Rattle.std.specs.Prelude.{◌≡◌};
    ghost use Rattle.depsets.specs.declared.element.Element.{Element};
    ghost use Rattle.depsets.specs.Digests.{element_digest};

    ghost Value = { Element };

    ghost view = { λ d. d.element };

    ghost invariant = { λ d. d.digest ≡ element_digest d.element };
}

impl DigestedElement {
    /// The element, whose digest is worked out.
    pub(crate) fn new(element: Element) -> DigestedElement
        ensures { result ≡ element }
    {
        let digest = element_digest(&element);
        DigestedElement { element, digest }
    }

    /// The element.
    pub fn get(&self) -> &Element
        ensures { result.now ≡ self.now }
    {
        &self.element
    }
}

impl PartialEq for DigestedElement {
    ghost use Rattle.depsets.specs.Elements.{same_element};
    ghost use Rattle.depsets.specs.Alike.{element_laws};
    ghost use Rattle.std.specs.Cmp.{partial_equiv_from_equiv};

    ghost eq = { same_element };

    ghost laws = { partial_equiv_from_equiv element_laws };

    fn eq(&self, other: &DigestedElement) -> bool {
        self.element == other.element
    }
}

impl Eq for DigestedElement {
    ghost use Rattle.depsets.specs.Alike.{element_laws};

    ghost laws = { element_laws };
}

impl Hash for DigestedElement {
    ghost use Rattle.std.specs.Hash as fed;
    ghost use Rattle.depsets.specs.Digests.{element_digest};
    ghost use Rattle.depsets.specs.Alike.{elements_alike};

    ghost hash_input = { λ e. fed.u64 (element_digest e) };

    ghost respects_eq = { elements_alike };

    fn hash<H: Hasher>(&self, state: &mut H) {
        self.digest.hash(state)
    }
}

/// The digest of an id.
fn id_digest(id: &Id) -> u64
    ensures { result ≡ id_digest id.now }
{
    let mut state = FoldHasher::default();
    id.owner.hash(&mut state);
    id.serial.hash(&mut state);
    state.finish()
}

/// The digest of an element.
fn element_digest(element: &Element) -> u64
    ensures { result ≡ element_digest element.now }
{
    let mut state = FoldHasher::default();
    match element {
        Element::Text(text) => {
            0u8.hash(&mut state);
            text.hash(&mut state);
        }
        Element::Number(number) => {
            1u8.hash(&mut state);
            number.hash(&mut state);
        }
        Element::Truth(truth) => {
            2u8.hash(&mut state);
            truth.hash(&mut state);
        }
        Element::Label(text) => {
            3u8.hash(&mut state);
            text.hash(&mut state);
        }
        Element::File(file) => put_file(&mut state, file.get()),
    }
    state.finish()
}

/// Feeds a File to a hasher.
fn put_file(state: &mut FoldHasher, file: &FileRef)
    ensures { state.new ≡ fold folding.write state.old (file_writes file.now) }
{
    4u8.hash(state);
    file.path.hash(state);
    file.owner.hash(state);
}
