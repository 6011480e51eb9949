//! Calls of the built-in functions and of the methods of values, with their arguments; and what is
//! in a list, a tuple, a dict or a string.
//!
//! Each call does what its definition in `operations` says, for every state; those that may give a
//! `Broken` may answer instead that memory was refused. After a fault, and after such a refusal,
//! the heap and the number of depsets are as they were. `provider`, `rule`, calls of rules and the
//! methods of `attr` and of `ctx.actions` are those of one place, and aren't here.
#![tactic(auto)]

mod affixes;
mod arguments;
mod binding;
mod built_ins;
mod dicts;
mod functions;
mod joins;
mod members;
mod methods;
mod pairs;
mod ranges;
mod receivers;
mod splits;

pub use affixes::{ends_with, starts_with};
pub use arguments::{Parameter, argument, got, only, positions};
pub use binding::check_arguments;
pub use built_ins::{fail, len, list, str};
pub use dicts::{get, keys, values};
pub use functions::{call_built_in, call_provider};
pub use joins::join;
pub use members::member;
pub use methods::call_method;
pub use pairs::items;
pub use ranges::range;
pub use splits::split;
