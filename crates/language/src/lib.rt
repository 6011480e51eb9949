//! The language: the operations on an evaluation's state, as the record over which files have their
//! meaning; and what an evaluation stands in.
//!
//! `specs/Language` makes that record, of what is known of the linked files and of what only one
//! place has (`specs/Place`). So what `meaning` says of every record of operations, it says of
//! these. [`Link`] is what is known of the linked files, all of which were evaluated before.
//! [`Place`] is what only a module, a `BUILD` file or an implementation has: its own work, its
//! calls, and what its targets and objects show. [`NoFiles`] and [`NoPlace`] are for an evaluation
//! that stands alone. [`kind_named`] tells the methods of `attr`, which every file finds bound.
#![tactic(auto)]

mod attr;
pub mod laws;
mod link;
mod none;
mod place;
mod whole;

pub use attr::kind_named;
pub use link::Link;
pub use none::{NoFiles, NoPlace};
pub use place::{Place, Works};
pub use whole::Whole;
