//! What files mean, and the instructions that do it.
//!
//! The definitions are in `specs/`. The meaning of a file whose names are resolved is that of the
//! Starlark specification, in this project's profile: of expressions (`Expressions`), statements
//! (`Statements`), calls and top levels (`Calls`), in slots and a state (`Outcome`), over a record
//! of operations on values (`Operations`), of which nothing is known here. Files are compiled to
//! instructions (`Instructions`, `ExpressionCode`, `StatementCode`), which a machine runs
//! (`Machine`, `Performing`). The [`laws`] join the two.
#![tactic(auto)]

pub mod laws;
