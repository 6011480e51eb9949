//! The compiler: from the tree of a file whose names are resolved to the instructions of its
//! functions.
//!
//! What a file means, which instructions do it, and that they do, is said by crate `meaning`: this
//! crate makes exactly those instructions ([`compile`]). It writes the instructions of a function
//! from the last one to the first ([`emitter`]), so a jump is written when what it passes stands
//! already, and none is changed afterwards. Expressions with the clauses of comprehensions
//! ([`terms`]) and statements ([`steps`]) put their instructions before those behind them.
#![tactic(auto)]

mod code;
mod compiling;
mod emitter;
mod instruction;
mod jumps;
mod names;
mod operators;
mod steps;
mod terms;

pub use code::{Code, FunctionCode};
pub use compiling::compile;
pub use instruction::{Both, Defined, Imported, Instruction, Lined, NamedCall, Source};
