//! What actions declare, the paths that conflict, and the actions that targets share.
#![tactic(auto)]

mod buckets;
mod claiming;
mod clashes;
mod commons;
mod comparable;
mod laws;
mod leaders;
mod marks;
mod members;
mod owned;
mod sets;
mod telling;
mod told;

pub use clashes::Conflict;
pub use laws::{
    actions_have_one_list_of_conflicts, actions_have_one_list_of_sets, conflicts_are_the_clashes,
    owners_of_a_path_are_its_labels,
};
pub use members::Places;
pub use owned::Owned;
pub use sets::Shared;
pub use telling::Telling;
pub use told::{Told, shared, tell};
