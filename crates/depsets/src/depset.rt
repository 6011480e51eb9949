//! Depsets as shared trees.
//!
//! A depset is one counted node, which has its children as a list by place, so a second name of it
//! costs a count, and a depset over others costs its direct elements and its children. What the
//! tests of a new depset ask of the whole tree below is kept in each node: its levels, and the type
//! of the elements.
ghost use Rattle.std.specs.Prelude.{◌≡◌, ◌<◌, ◌≤◌, ◌+◌, ◌↔◌, ◌⊎◌, true, false, None, Some};
ghost use Rattle.std.specs.Prelude.{[], IfOk, IsTrue, MatchResult};
ghost use Rattle.depsets.specs.Rose.{children, label, node, roses, depth, depths};
ghost use Rattle.depsets.specs.Orders.{fits, all_fit};
ghost use Rattle.depsets.specs.Elements.{elements, elements_of, is_uniform, first_type, goes_on};
ghost use Rattle.depsets.specs.Elements.{type_after, joined};
ghost use Rattle.depsets.specs.Refusals.{refusal};
ghost use Rattle.depsets.specs.Own.{Own};
ghost use Rattle.depsets.specs.Orders.{is_preorder};

use crate::digest::{DigestedElement, DigestedId};
use crate::{Element, ElementType};
use plain::Text;
use std::alloc::{AllocError, Global};
use std::marker::Model;
use std::sync::Arc;
use thiserror::Error;

/// How many levels a depset has at most: one without children has one. (This project's own limit.)
pub const LEVELS: u32 = 1000;

/// What tells depsets apart: who made it, and its number among those of that maker.
///
/// The owner is the path of the file or the label of the target whose evaluation made the depset,
/// or the label of the source file whose depset it is.
#[derive(PartialEq, Eq, Hash, Drop)]
pub struct Id {
    /// The path of a file, or the label of a target or of a source file.
    pub owner: Text,
    /// Its number among the depsets of that owner, from 1; 0 where no call made it.
    pub serial: u64,
}

impl Id {
    /// Another name of the same id. Its text is shared and not copied.
    ///
    /// # Errors
    ///
    /// `AllocError` where the count of the names of its text is at its greatest.
    pub fn share(&self) -> Result<Id, AllocError>
        ensures { IfOk result (λ i. i ≡ self.now) }
    {
        let owner = self.owner.share()?;
        Ok(Id {
            owner,
            serial: self.serial,
        })
    }
}

/// The order of a depset's listing (Bazel's documentation of depsets, "Order").
#[derive(Clone, Copy, PartialEq, Eq, Debug)]
pub enum Order {
    /// Listed as `Postorder`, and goes with both others. (Bazel leaves this order open.)
    Default,
    /// The children's elements from left to right, and then the direct ones.
    Postorder,
    /// The direct elements, and then the children's from left to right.
    Preorder,
}

impl Order {
    /// Whether the direct elements come before those of the children.
    pub fn is_preorder(self) -> bool
        ensures { result ≡ is_preorder self }
    {
        matches!(self, Order::Preorder)
    }

    /// Whether a depset of this order may have a child of that one: they are equal, or one is the
    /// default.
    pub fn fits(self, child: Order) -> bool
        ensures { result ≡ fits self child }
    {
        self == child || self == Order::Default || child == Order::Default
    }
}

/// Why a depset is not made.
#[derive(PartialEq, Eq, Debug, Drop, Error)]
pub enum DepsetError {
    /// Two elements, at it or below it, have different types.
    #[error("the elements of a depset are of one type")]
    Mixed,
    /// A child's order is another, and neither is the default.
    #[error("the orders of a depset and of its child do not go together")]
    Order,
    /// It would have more than 1,000 levels.
    #[error("a depset has at most 1,000 levels")]
    Deep,
    /// Memory for the node was refused.
    #[error("no memory")]
    NoMemory,
}

/// A depset, whose parts may be shared.
#[derive(Drop)]
#[cycle(depset)]
pub struct Depset {
    node: Arc<Node>,
}

#[derive(Drop)]
#[cycle(depset)]
struct Node {
    id: DigestedId,
    order: Order,
    direct: Vec<DigestedElement>,
    children: Vec<Depset>,
    levels: u32,
    element_type: Option<ElementType>,
    room: Room,
}

/// The greatest room: a depset can have one child a million times, and its listing takes no memory
/// for that.
const GREATEST_ROOM: u32 = 4096;

/// For how many ids and items a listing takes memory at its beginning, 4,096 at most. It is a
/// guess, of which no contract speaks: the depset, its own elements, what a child has that has
/// most, and one for each other child.
#[derive(Clone, Copy)]
pub(crate) struct Room {
    pub(crate) ids: u32,
    pub(crate) items: u32,
}

impl Model for Depset {
    ghost use Rattle.depsets.specs.Rose.{Rose, coded_rose, weight};
    ghost use Rattle.depsets.specs.Own.{Own, own_code};

    ghost Value = { Rose Own };

    ghost coded = { coded_rose own_code };

    ghost use Rattle.depsets.specs.Trees.{tree_of, IsKept};

    ghost view = { λ d. tree_of d.node.value };

    ghost invariant = { λ d. IsKept d.node.value };

    ghost size = { weight };

    ghost use Rattle.depsets.specs.Falls.{deep_le-weight};

    ghost size_decreases = { λ d h. deep_le-weight d.node.value };
}

impl Depset {
    /// A depset of these parts. It costs the direct elements and the children, and nothing below
    /// them.
    ///
    /// # Errors
    ///
    /// The first that applies of `Mixed`, `Order` and `Deep`; `NoMemory` may stand in place of any
    /// answer.
    pub fn new(
        alloc: Global,
        id: Id,
        order: Order,
        direct: Vec<Element>,
        children: Vec<Depset>,
    ) -> Result<Depset, DepsetError>
        ensures { let given : Own = record { id = id; order = order; direct = direct.items } in
            let tree = node given (roses children.items) in
            MatchResult result (λ d. (d ≡ tree) × (refusal tree ≡ None))
            (λ e. (e ≡ DepsetError.NoMemory) ⊎ (refusal tree ≡ Some e)) }
    {
        let known = match type_of_direct(direct.as_slice()) {
            Ok(known) => known,
            Err(mixed) => return Err(mixed),
        };
        let element_type = match type_with_children(known, children.as_slice()) {
            Ok(element_type) => element_type,
            Err(mixed) => return Err(mixed),
        };
        if !children_fit(order, children.as_slice()) {
            return Err(DepsetError::Order);
        }
        let below = most_levels(children.as_slice());
        if below >= LEVELS {
            return Err(DepsetError::Deep);
        }
        let direct = match digested(alloc, direct) {
            Ok(direct) => direct,
            Err(_) => return Err(DepsetError::NoMemory),
        };
        let room = room_over(direct.as_slice(), children.as_slice());
        let node = Node {
            id: DigestedId::new(id),
            order,
            direct,
            children,
            levels: below + 1,
            element_type,
            room,
        };
        match Arc::new(alloc, node) {
            Ok(node) => Ok(Depset { node }),
            Err(_) => Err(DepsetError::NoMemory),
        }
    }

    /// Another name of the same depset: one count more, and no copy.
    ///
    /// # Errors
    ///
    /// `AllocError` where the count of its names is at its greatest.
    pub fn share(&self) -> Result<Depset, AllocError>
        ensures { IfOk result (λ d. d ≡ self.now) }
    {
        let node = Arc::try_clone(&self.node)?;
        Ok(Depset { node })
    }

    /// Its id.
    pub fn id(&self) -> &Id
        ensures { result.now ≡ (label self.now).id }
    {
        self.node.id.get()
    }

    /// Its id, with the digest by which a listing looks it up.
    pub(crate) fn digested_id(&self) -> &DigestedId
        ensures { result.now ≡ (label self.now).id }
    {
        &self.node.id
    }

    /// The order that it was made with.
    pub fn order(&self) -> Order
        ensures { result ≡ (label self.now).order }
    {
        self.node.order
    }

    /// Its own elements, without those of its children. Each is lent with the digest by which a
    /// listing looks it up.
    pub fn direct(&self) -> &[DigestedElement]
        ensures { result.now ≡ (label self.now).direct }
    {
        self.node.direct.as_slice()
    }

    /// The depsets directly below it.
    pub fn children(&self) -> &[Depset]
        ensures { result.now ≡ children self.now }
    {
        self.node.children.as_slice()
    }

    /// For how much a listing takes memory at its beginning.
    pub(crate) fn room(&self) -> Room {
        self.node.room
    }

    /// How many levels it has: one without children has one.
    pub fn levels(&self) -> u32
        ensures levels { result ≡ depth self.now }
        ensures bounded { result ≤ LEVELS }
    {
        self.node.levels
    }

    /// The type of all elements at it and below it, or None where there is none.
    pub fn element_type(&self) -> Option<ElementType>
        ensures first { result ≡ first_type (elements self.now) }
        ensures uniform { is_uniform (elements self.now) ≡ true }
    {
        self.node.element_type
    }

    /// Whether neither it nor a depset below it has an element.
    pub fn is_empty(&self) -> bool
        ensures { IsTrue result ↔ (elements self.now ≡ []) }
    {
        self.element_type().is_none()
    }
}

/// These elements, each with its digest.
fn digested(alloc: Global, elements: Vec<Element>) -> Result<Vec<DigestedElement>, AllocError>
    ensures { IfOk result (λ v. v.items ≡ elements.items) }
{
    let mut all = Vec::with_capacity(alloc, elements.len())?;
    for element in elements {
        all.push(DigestedElement::new(element))?;
    }
    Ok(all)
}

/// The room for a depset of these elements over these children: each child but the one that has
/// most counts as one.
fn room_over(direct: &[DigestedElement], children: &[Depset]) -> Room {
    let mut most = Room { ids: 0, items: 0 };
    for child in children {
        let room = child.room();
        most.ids = most.ids.max(room.ids);
        most.items = most.items.max(room.items);
    }
    let others = count(children.len()).saturating_sub(1);
    let ids = most.ids.saturating_add(others).saturating_add(1);
    let items = most.items.saturating_add(others);
    let items = items.saturating_add(count(direct.len()));
    Room {
        ids: ids.min(GREATEST_ROOM),
        items: items.min(GREATEST_ROOM),
    }
}

/// So many, or the greatest number.
fn count(items: usize) -> u32 {
    u32::try_from(items).unwrap_or(u32::MAX)
}

/// The type of these elements, as far as they have one.
fn type_of_direct(direct: &[Element]) -> Result<Option<ElementType>, DepsetError>
    ensures { MatchResult result (λ t. (is_uniform direct.now ≡ true) × (t ≡ first_type direct.now))
        (λ e. (e ≡ DepsetError.Mixed) × (is_uniform direct.now ≡ false)) }
{
    let mut known = None;
    for element in direct {
        match joined(known, Some(element.element_type())) {
            Ok(both) => known = both,
            Err(mixed) => return Err(mixed),
        }
    }
    Ok(known)
}

/// The type of elements of the type that is known, if any, and of all elements of the children.
fn type_with_children(
    known: Option<ElementType>,
    children: &[Depset],
) -> Result<Option<ElementType>, DepsetError>
    ensures { MatchResult result (λ t. (goes_on known (elements_of (roses children.now)) ≡ true)
        × (t ≡ type_after known (elements_of (roses children.now))))
        (λ e. (e ≡ DepsetError.Mixed) × (goes_on known (elements_of (roses children.now))
        ≡ false)) }
{
    let mut known = known;
    for child in children {
        match joined(known, child.element_type()) {
            Ok(both) => known = both,
            Err(mixed) => return Err(mixed),
        }
    }
    Ok(known)
}

/// The type of both, where neither or only one has elements or their types are the same.
fn joined(
    known: Option<ElementType>,
    next: Option<ElementType>,
) -> Result<Option<ElementType>, DepsetError>
    ensures { MatchResult result (λ t. joined known next ≡ Some t)
        (λ e. (e ≡ DepsetError.Mixed) × (joined known next ≡ None)) }
{
    match (known, next) {
        (None, _) => Ok(next),
        (Some(_), None) => Ok(known),
        (Some(a), Some(b)) => {
            if a == b {
                Ok(known)
            } else {
                Err(DepsetError::Mixed)
            }
        }
    }
}

/// Whether each child may stand under the order.
fn children_fit(order: Order, children: &[Depset]) -> bool
    ensures { result ≡ all_fit order (roses children.now) }
{
    for child in children {
        if !order.fits(child.order()) {
            return false;
        }
    }
    true
}

/// The most levels that one of these has, 0 where there is none.
fn most_levels(children: &[Depset]) -> u32
    ensures levels { result ≡ depths (roses children.now) }
    ensures bounded { result ≤ LEVELS }
{
    let mut most = 0;
    for child in children {
        most = most.max(child.levels());
    }
    most
}
