//! Names behind a dot, as code holds them.
//!
//! A name is read in a file's text once. Which of the names it is that values, targets and objects
//! know is told then, so that a field or a method is found later without a look at its text.
#![tactic(auto)]

mod field_name;
mod known_name;

pub use field_name::FieldName;
pub use known_name::KnownName;
