//! The machine that runs compiled code: steps over instructions, from the start of a run to its
//! end.
//!
//! [`execute`] runs a call, or the top level of a file, of files that are compiled and linked
//! ([`Linked`]), in a world of operations ([`frames::Operate`]): what comes of it is exactly what
//! the files mean. The calls that are running and how arguments are bound are crate `call_stack`.
#![tactic(auto)]

mod executing;
mod stepping;

pub use call_stack::{Arguments, Linked};
pub use executing::{Start, execute};
