//! The heap: the cells that names share, by their numbers, all that changes them, and what a value
//! shows there.
//!
//! To a contract the heap is the list of its cells: `specs/` says what each change makes of it, and
//! what holds of all of them.
#![tactic(auto)]

mod heap;
mod laws;
mod seeing;

pub use heap::Heap;
pub use laws::{changes_touch_one_cell, walked_cells_keep_their_items, walks_leave_walked_cells};
