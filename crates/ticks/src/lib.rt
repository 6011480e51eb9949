//! The ticks of an evaluation, what a visit of a frozen value takes of them, the kinds of its
//! faults, and how a call's answer agrees with what a definition gives.
#![tactic(auto)]

mod extent;
mod ticks;

pub use extent::Extent;
pub use ticks::{Broken, Kind, Ticks, VISITED_LEVELS};
