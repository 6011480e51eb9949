//! What an evaluation does to its state: every operation of the language, as a definition.
//!
//! An operation goes from a state (`State`) to a value and the state after it, or to the kind of
//! its fault. `specs/` has one definition an operation, by subject, and the calls that do them
//! stand in the crates above. They know nothing of trees and of instructions.
#![tactic(auto)]

mod arguments;
mod arithmetic;
mod default_info;
mod made;
mod method;
mod state;

pub use arguments::Arguments;
pub use arithmetic::Arithmetic;
pub use default_info::DefaultInfo;
pub use made::Made;
pub use method::Method;
pub use state::{Defaults, State};
