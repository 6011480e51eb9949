//! The loading phase of a workspace: all files read and compiled once, all modules evaluated once,
//! and `BUILD` files evaluated one by one.
//!
//! [`LoadedFiles`] has the files and the modules. What its calls answer is what `specs/Files` says,
//! for the places of evaluations that `specs/Places` gives.
//!
//! [`KnownModules`] are modules by path, however they are kept. With the paths of all files they
//! are what an evaluation knows of the linked files ([`Files`]): values of names, defaults of
//! functions, what loads ask for, and what modules declared.
#![tactic(auto)]

mod building;
mod evaluating;
mod files;
mod known;
mod loaded;
mod made;
mod modular;
mod top;

pub use files::{Files, attribute_at};
pub use known::{Before, KnownModules, Loaded};
pub use loaded::LoadedFiles;
pub use made::KnownMade;
