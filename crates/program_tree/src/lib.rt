//! Files whose names are resolved: what the parser gives, and what a compiler and a loader read.
//!
//! [`names`] has what a name stands for, [`program`] the tree of statements and expressions, and
//! [`parsed`] a file as a whole. What the names of a file are resolved to stands in `specs/`, over
//! the trees of crate `grammar`.
#![tactic(auto)]

mod names;
mod parsed;
pub mod program;

pub use names::{Binding, Predeclared, predeclared_as};
pub use parsed::Parsed;
pub use program::{
    Argument, Branch, Function, Loaded, OwnSlots, Pair, Round, Statement, Step, Term,
};
