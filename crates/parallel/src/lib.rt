//! How many threads work, and lists whose items they make.
//!
//! [`Workers`] is how many there are.
//! [`map_places`] calls a function at each place of a list. Each thread takes the next place that
//! none has taken, so they end together though one call may take longer than another.
#![tactic(auto)]

mod made;
mod turns;
mod workers;

pub use made::map_places;
pub use workers::Workers;
