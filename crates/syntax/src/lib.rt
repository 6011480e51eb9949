//! The syntax of `BUILD` files and modules: from the bytes of a text to its tree, or to its first
//! fault.
//!
//! Five passes, each over the whole of a text. The first three give the logical lines, and are
//! those of crate `lexer`; the fourth gives the statements in their blocks, and is that of crate
//! `statements`. The fifth resolves the names of the top level ([`top`]), of lines ([`steps`],
//! [`heads`]) and of expressions ([`resolver`]) by what is in scope (crate `scopes`), which gives
//! the tree that is handed on (crate `program_tree`), or finds the first line that breaks a rule of
//! scopes. [`parsing`] joins the five.
#![tactic(auto)]

mod heads;
mod parsing;
mod resolver;
mod steps;
mod top;

pub use grammar::{Operator, Sign};
pub use lexer::{FaultKind, FileKind, NoMemory, ParseStop, SyntaxFault};
pub use parsing::parse;
pub use program_tree::{
    Argument, Binding, Branch, Function, Loaded, OwnSlots, Pair, Parsed, Predeclared, Round,
    Statement, Step, Term, predeclared_as,
};
