//! Where the workers of a run find the numbers of nodes that can be started.
//!
//! A [`Shelf`] is one worker's end of such a place. [`LockShelf`] is an end of one queue under one
//! lock, [`StealShelf`] a deque of the worker's own, from which the others steal. The first nodes
//! of a run stand in one list, which all ends of a shelf of deques share.
#![tactic(auto)]

mod known;
mod shelf;
mod steal;

pub use shelf::{LockShelf, Shelf};
pub use steal::StealShelf;
