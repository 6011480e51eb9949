//! What the evaluation of one file comes to.
//!
//! The definitions stand in `specs/`: `Evaluated` says what a module leaves to the files that load
//! it, `Worlds` what an evaluation knows of the modules before it, `Naming` how providers and rules
//! get their names, and `Runs` what the top level of a module or a `BUILD` file and the call of an
//! implementation come to, over any place of each. `Workspaces` puts them together for the files of
//! a workspace. [`first_state`] and [`state_of_target`] are what an evaluation begins with.
#![tactic(auto)]

mod beginning;
mod handed;
mod kept;
mod names;

pub use beginning::{first_state, state_of_target};
pub use handed::{Globals, Module};
pub use kept::{FunctionDefaults, LoadedValues, ModuleDefaults};
pub use names::TopNames;
