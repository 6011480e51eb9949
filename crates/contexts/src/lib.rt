//! What an implementation function sees: the targets that it depends on, `ctx` and its parts; and
//! what it does.
//!
//! Definitions: `specs/Offered` says what a target offers, `specs/Fields` which fields targets,
//! `ctx`, `ctx.attr` and `ctx.files` have, and `specs/Actions` what the methods of `ctx.actions`
//! declare and refuse. Of these `implementations` makes the place over which the language has its
//! meaning in the call of an implementation. [`Work`] is what an implementation has done so far.
//!
//! Calls: the fields, and the instances of providers that targets offer, each by its definition, or
//! the answer that memory was refused, where a `Broken` or an `AllocError` may be given. Nothing of
//! a dependency is copied or counted: its label, its depsets and its instances are lent where they
//! lie, and so are the lists of targets that [`TargetContext`] made once of the target's
//! attributes. A list of `ctx.files` names each File once more: it is made at its first read, kept
//! in [`TargetContext`], and lent from then on.
#![tactic(auto)]

mod attributes;
mod context;
mod dependencies;
mod fields;
mod files;
mod kept;
mod listings;
mod method;
mod offered;
mod work;

pub use context::TargetContext;
pub use dependencies::Dependencies;
pub use fields::field;
pub use kept::FileLists;
pub use method::ActionMethod;
pub use offered::{item, offers};
pub use work::{DeclaredFiles, Work};
