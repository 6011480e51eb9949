//! How the evaluation of a module ends: its globals and defaults are frozen, and what it made gets
//! its names.
//!
//! What a module made is told apart by numbers, and is called by the names of its globals.
//! `specs/Called` says how both agree, and the contract of [`numbers_and_names_agree`] that they
//! do.
#![tactic(auto)]

mod called;
mod ending;
mod handing;
pub mod laws;
mod naming;
mod parts;
mod renaming;

pub use ending::end_module;
pub use laws::numbers_and_names_agree;
