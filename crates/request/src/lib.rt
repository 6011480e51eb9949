//! What a request asks for: the words of the command line, and the input that spells a workspace.
#![tactic(auto)]

mod input;
mod words;

pub use input::{INPUT_LIMIT, InputRefused, read_workspace};
pub use words::{Request, WordsStop, read_words};
