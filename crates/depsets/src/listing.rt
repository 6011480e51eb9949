//! The listing of a depset, by a walk that visits no id twice.
//!
//! The plain meaning of a listing walks the whole tree, which can have 2^1000 paths where children
//! are shared, and then keeps the first occurrence of each element. The walk here skips each depset
//! whose id it has left before. An id is marked when its depset is left, and not when it is
//! entered: then the ids that are marked and the items that were taken are both 'the first
//! occurrences so far', and skipping adds nothing to either. Every link and element is read through
//! a `Cursor`, which counts each read.
ghost use Rattle.std.specs.Prelude.{◌≡◌, ◌+◌, ◌<◌, ◌≤◌, IfOk, OnOk, IfSome, length};
ghost use Rattle.std.specs.Prelude.{slice_get, Some, Err, false};
ghost use Rattle.depsets.specs.Rose.{children, label};
ghost use Rattle.depsets.specs.Walker.{walk_of};
ghost use Rattle.depsets.specs.Keys.{has, keep};
ghost use Rattle.depsets.specs.Elements.{same_element};
ghost use Rattle.depsets.specs.Listed.{visited, visited_all, inside, took, same_id, flat, work};
ghost use Rattle.depsets.specs.Listed.{walked, walked_steps, IsCoherent};

use crate::Depset;
use crate::digest::{DigestedElement, DigestedId};
use crate::distinct::{Distinct, Elements};
use std::alloc::{AllocError, Global};
use thiserror::Error;

/// How many items `to_list` gives at most. (This project's own limit, that of every list.)
pub const ITEMS: usize = 1_048_576;

/// The items of a listing, each once and where it lies, and the steps that the walk took.
///
/// A step is the depset itself, one link to a child, or one direct element.
#[derive(Drop)]
pub struct Listing<'a> {
    /// The first occurrence of each element, in the order of the walk.
    pub items: Elements<'a>,
    /// How many steps the walk took, 1 at least.
    pub steps: u64,
}

/// Why a depset is not listed.
#[derive(PartialEq, Eq, Debug, Drop, Error)]
pub enum ListError {
    /// The listing has more than 1,048,576 items.
    #[error("a list has at most 1,048,576 items")]
    Large,
    /// Memory was refused, or the steps passed the greatest number.
    #[error("no memory")]
    NoMemory,
}

impl Depset {
    /// The listing of the depset in its own order.
    ///
    /// Items and steps are those of the walk that goes into each id once. Of a coherent depset, in
    /// which any two parts with one id are the same tree, the items are those of the whole tree,
    /// and there are as many steps as there is work: 1, and over the distinct ids the direct
    /// elements and the links to children.
    ///
    /// # Errors
    ///
    /// `AllocError` where memory was refused, or where the steps pass the greatest `u64`.
    pub fn list_whole(&self, alloc: Global) -> Result<Listing<'_>, AllocError>
        ensures walk { IfOk result (λ l. l.items ≡ walked self.now) }
        ensures walk_steps { IfOk result (λ l. l.steps ≡ walked_steps self.now) }
        ensures items { IfOk result (λ l. IsCoherent self.now → l.items ≡ flat self.now) }
        ensures steps { IfOk result (λ l. IsCoherent self.now → l.steps ≡ work self.now) }
    {
        if let Some(listing) = self.listed_alone() {
            return Ok(listing);
        }
        let listing = self.listed_by_walk(alloc)?;
        Ok(listing)
    }

    /// The listing where there is no child and at most one element: then it takes no walk and no
    /// memory.
    fn listed_alone(&self) -> Option<Listing<'_>>
        ensures items { IfSome result (λ l. l.items ≡ walked self.now) }
        ensures steps { IfSome result (λ l. l.steps ≡ walked_steps self.now) }
    {
        let direct = self.direct();
        if !self.children().is_empty() || direct.len() > 1 {
            return None;
        }
        Some(Listing {
            items: Elements::own(direct),
            steps: 1 + direct.len() as u64,
        })
    }

    /// The listing by a walk.
    fn listed_by_walk(&self, alloc: Global) -> Result<Listing<'_>, AllocError>
        ensures items { IfOk result (λ l. l.items ≡ walked self.now) }
        ensures steps { IfOk result (λ l. l.steps ≡ walked_steps self.now) }
    {
        let room = self.room();
        let seen = Distinct::with_room(alloc, room.ids)?;
        let taken = Distinct::with_room(alloc, room.items)?;
        let mut walker = Walker {
            seen,
            items: taken,
            cursor: Cursor { steps: 1 },
        };
        walker.visit(self, self.order().is_preorder())?;
        let Walker {
            seen: _,
            items,
            cursor,
        } = walker;
        Ok(Listing {
            items: Elements::of(items),
            steps: cursor.steps,
        })
    }

    /// The listing as a list of the language: the same, with at most 1,048,576 items.
    ///
    /// # Errors
    ///
    /// `Large` exactly where the listing has more items; `NoMemory` as for `list_whole`.
    pub fn to_list(&self, alloc: Global) -> Result<Listing<'_>, ListError>
        ensures walk { IfOk result (λ l. l.items ≡ walked self.now) }
        ensures walk_steps { IfOk result (λ l. l.steps ≡ walked_steps self.now) }
        ensures items { IfOk result (λ l. IsCoherent self.now → l.items ≡ flat self.now) }
        ensures steps { IfOk result (λ l. IsCoherent self.now → l.steps ≡ work self.now) }
        ensures fits { IfOk result (λ l. length l.items ≤ ITEMS) }
        ensures large { result ≡ Err ListError.Large → ITEMS < length (walked self.now) }
        ensures large_items { result ≡ Err ListError.Large → IsCoherent self.now
            → ITEMS < length (flat self.now) }
    {
        match self.list_whole(alloc) {
            Ok(listing) => {
                if listing.items.len() > ITEMS {
                    Err(ListError::Large)
                } else {
                    Ok(listing)
                }
            }
            Err(_) => Err(ListError::NoMemory),
        }
    }
}

/// Reads links and elements, and counts its reads.
#[derive(Drop)]
struct Cursor {
    steps: u64,
}

impl Cursor {
    /// Reads one item. A count past the greatest number is answered as want of memory.
    fn read<'a, T>(&mut self, items: &'a [T], i: usize) -> Result<&'a T, AllocError>
        requires { i < length items.now }
        ensures item { IfOk result (λ x. slice_get items.now i ≡ Some x.now) }
        ensures steps { OnOk result (self.new.steps ≡ self.old.steps + 1) }
    {
        match self.steps.checked_add(1) {
            Some(steps) => {
                self.steps = steps;
                Ok(&items[i])
            }
            None => Err(AllocError),
        }
    }
}

/// A walk: the ids that it has left, the items that it has taken, and its steps.
#[derive(Drop)]
struct Walker<'a> {
    seen: Distinct<'a, DigestedId>,
    items: Distinct<'a, DigestedElement>,
    cursor: Cursor,
}

impl<'a> Walker<'a> {
    /// Takes the depset's own elements.
    fn take_own(&mut self, d: &'a Depset) -> Result<(), AllocError>
        ensures { OnOk result (walk_of self.new
            ≡ took (label d.now).direct (label d.now) (walk_of self.old)) }
    {
        let direct = d.direct();
        for i in 0..direct.len() {
            let element = self.cursor.read(direct, i)?;
            take(&mut self.items, element)?;
        }
        Ok(())
    }

    /// Visits the depset, unless its id was seen. Where parts are shared most links lead to one
    /// that was, which is found in the loop.
    #[cycle(walk)]
    #[inline(always)]
    fn visit(&mut self, d: &'a Depset, preorder: bool) -> Result<(), AllocError>
        ensures { OnOk result (walk_of self.new ≡ visited preorder d.now (walk_of self.old)) }
    {
        if self.seen.contains(d.digested_id()) {
            return Ok(());
        }
        self.visit_new(d, preorder)
    }

    /// Visits a depset whose id wasn't seen. A level of a depset takes one call, of this function.
    #[cycle(walk)]
    #[inline(never)]
    fn visit_new(&mut self, d: &'a Depset, preorder: bool) -> Result<(), AllocError>
        requires { has same_id self.old.seen (label d.now).id ≡ false }
        ensures { OnOk result (walk_of self.new ≡ visited preorder d.now (walk_of self.old)) }
    {
        self.visit_inside(d, preorder)?;
        self.seen.put(d.digested_id())?;
        Ok(())
    }

    /// Takes the elements of the depset and visits its children, in the order asked.
    #[cycle(walk)]
    #[inline(always)]
    fn visit_inside(&mut self, d: &'a Depset, preorder: bool) -> Result<(), AllocError>
        ensures { OnOk result (walk_of self.new ≡ inside preorder d.now (walk_of self.old)) }
    {
        if preorder {
            self.take_own(d)?;
            return self.visit_children(d, preorder);
        }
        self.visit_children(d, preorder)?;
        self.take_own(d)
    }

    /// Visits each child in turn.
    #[cycle(walk)]
    #[inline(always)]
    fn visit_children(&mut self, d: &'a Depset, preorder: bool) -> Result<(), AllocError>
        ensures { OnOk result (walk_of self.new
            ≡ visited_all preorder (children d.now) (walk_of self.old)) }
    {
        let children = d.children();
        for i in 0..children.len() {
            let child = self.cursor.read(children, i)?;
            self.visit(child, preorder)?;
        }
        Ok(())
    }
}

/// Takes an element, if it is not among the items.
fn take<'a>(
    items: &mut Distinct<'a, DigestedElement>,
    element: &'a DigestedElement,
) -> Result<(), AllocError>
    ensures { OnOk result (items.new ≡ keep same_element items.old element.now) }
{
    items.put(element)
}
