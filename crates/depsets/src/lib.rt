//! Depsets: shared trees of elements, and their listing.
//!
//! A depset has direct elements, children that are depsets, an order and an id. Making one costs
//! its direct elements and its children, whatever lies below them, and any number of depsets and
//! threads share one child by a count each (`depset`). Its listing walks no id twice (`listing`),
//! and its items are those of the plain meaning: the walk of the whole tree, and of each element
//! its first occurrence.
//!
//! To a contract a depset is a tree (`specs/Rose`, `specs/Own`); `specs/Flat` says what its listing
//! is.
#![tactic(auto)]

mod depset;
mod digest;
mod distinct;
mod element;
mod iter;
mod listing;

pub use depset::{Depset, DepsetError, Id, LEVELS, Order};
pub use digest::DigestedElement;
pub use distinct::Elements;
pub use element::{Element, ElementType, FileRef};
pub use iter::ElementsIter;
pub use listing::{ITEMS, ListError, Listing};
