//! Tests of the crates that read files, from `lexer` to `code`. They are a crate of their own, so
//! that these are proved once. `small_stack` shows that `syntax` takes little of the stack, however
//! long a text is and however deep one may be: each text is read, and its tree let go, on a thread
//! with a small stack. A text that takes more ends the tests.
#![tactic(auto)]

#[cfg(test)]
mod deep;
#[cfg(test)]
mod expressions;
#[cfg(test)]
mod files;
#[cfg(test)]
mod instructions;
#[cfg(test)]
mod logical_lines;
#[cfg(test)]
mod long;
#[cfg(test)]
mod names;
#[cfg(test)]
mod small_stack;
