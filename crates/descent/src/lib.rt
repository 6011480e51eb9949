//! Expressions, read by descent from the front of a logical line.
//!
//! The grammar's definitions and laws, and what is read, stand in crate `grammar`.
#![tactic(auto)]

mod expressions;
mod whole;

pub use expressions::expression;
pub use whole::line_expression;
