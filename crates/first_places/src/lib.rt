//! Names, found at their first places.
//!
//! A call by name gives names, and each is looked for among others: parameters, fields of a
//! provider, attributes of a rule. Few are gone through, and many are put in order, so that who
//! chooses the names can't make that slow.
#![tactic(auto)]

mod among;
mod names;
mod places;

pub use among::are_among;
pub use names::PlacedNames;
pub use places::{FirstPlaces, place_named};
