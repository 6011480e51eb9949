//! Plain data that the other crates share: texts, stacks, values behind one count, and lists whose
//! room was taken before.
//!
//! A contract sees a struct as the record of its fields, and of a `String` or an `Arc` that record
//! holds addresses, so two equal texts at two places would differ. So each type of this crate says
//! what it is as plain data, and that is what `≡` compares in every contract that speaks of it.
#![tactic(auto)]

mod lists;
mod shared;
mod stack;
mod text;
mod text_bytes;

pub use lists::push_last;
pub use shared::Shared;
pub use stack::Stack;
pub use text::Text;
