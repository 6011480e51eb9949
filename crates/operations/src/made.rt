//! What an operation gives, before it has a place in the state.

use values::{Items, Key, Leaf};

/// A value without parts, or the items of a new list or of a new tuple.
#[derive(Drop)]
pub enum Made<'a> {
    /// A string, a whole number or a bool.
    Key(Key),
    /// Any other value without parts.
    Leaf(Leaf),
    /// The items of a new list.
    List(Items<'a>),
    /// The items of a new tuple.
    Tuple(Items<'a>),
}
