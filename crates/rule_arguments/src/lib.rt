//! What a call of a rule gives, found by name, and its freezing.
#![tactic(auto)]

mod freezing;
mod given;

pub use freezing::freeze_given;
pub use given::ByName;
