//! The grammar of `BUILD` files and modules: its definitions and laws, the trees of expressions and
//! statements, and what reads them from the front of a logical line.
//!
//! Crate `lexer` gives the logical lines. [`ahead`] is what is left of one, [`parts`] makes an
//! expression of parts that were read, with its depth. Crate `descent` reads expressions by these,
//! crate `statements` whole files.
#![tactic(auto)]

pub mod ahead;
pub mod block_laws;
pub mod form_laws;
pub mod grammar_laws;
mod name;
pub mod parts;
mod statements;
mod tree;

pub use name::Name;
pub use statements::{Form, Item, Line, Param};
pub use tree::{Clause, Entry, Expr, Keyword, MAX_DEPTH, Operator, Sign, Target};
