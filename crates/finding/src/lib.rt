//! Fields of values, and methods where they are called.
//!
//! Each call does what its definition in `operations` says, for every state, or answers that memory
//! was refused. A label's text begins with two slashes; of another text, which no label has, its
//! package is answered as want of memory.
#![tactic(auto)]

mod fields;
mod finds;
mod methods;
mod parts;

pub use fields::field;
pub use finds::{Found, find};
pub use methods::method_named;
