//! The scopes of a file: the names that its lines bind, and what a name stands for as functions and
//! comprehensions are entered and left.
//!
//! [`bound`] tells which names lines, parameters and comprehensions bind; [`levels`] gives the
//! names of a function and of the comprehensions in it their slots, of which [`scope`] is one part
//! and the names of the top level the other. [`slots`] counts the slots that comprehensions take.
//! What names stand for is defined in crate `program_tree`.
#![tactic(auto)]

mod bound;
mod levels;
mod scope;
mod slots;
mod spelt;

pub use bound::{add_lines, add_loaded, add_params, block_of, clause_names, form_names};
pub use levels::Levels;
pub use scope::{Scope, are_distinct, bind_anew, is_free, none_predeclared, texts_of};
pub use slots::steps_slots;
