//! What a module leaves, frozen: its globals first, and then the defaults of its functions.
#![tactic(auto)]

mod freezing;
mod left;

pub use left::{Left, freeze_all};
