//! The lexical half of the syntax of `BUILD` files and modules: from the bytes of a text to its
//! logical lines, or to its first fault.
//!
//! Three passes, each over the whole text: its characters ([`characters`]), its tokens ([`begins`]
//! says what begins at a byte, [`scan`] goes from one to the next), its brackets and columns
//! ([`layout`]). [`lines`] joins them. Tokens are places in the text and own no memory.
#![tactic(auto)]

mod begins;
mod characters;
mod classes;
mod fault;
mod file_kind;
mod laws;
mod layout;
mod lines;
mod names;
mod numbers;
mod scan;
mod strings;
mod token;
mod words;

pub use fault::{FaultKind, NoMemory, ParseStop, SyntaxFault};
pub use file_kind::FileKind;
pub use laws::{
    at_most_one_reading, reads_what_is_laid_out, tokens_are_the_longest_that_fit,
    tokens_are_those_of_the_parts,
};
pub use layout::Bracket;
pub use lines::{Lines, logical_lines};
pub use names::is_name;
pub use strings::{stands_for, unescape};
pub use token::{Kind, Mark, Span, Token, Word};
