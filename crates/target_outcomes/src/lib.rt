//! The analysis of one target of a workspace: from the outcomes of its dependencies to its own, by
//! the call of the implementation of its rule.
//!
//! [`Analysis`] has what all calls share. What they answer is the step that crate `targets`
//! defines, with the implementations that `specs/Implementing` says. No call changes anything that
//! another sees, so targets may be analysed in any order, and many at once.
#![tactic(auto)]

mod calling;
mod given;
mod one_target;
mod returning;
mod source;

pub use one_target::Analysis;
