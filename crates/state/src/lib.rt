//! What an evaluation does to its state: a call for each operation of the language.
//!
//! Each call does what its definition in `operations` says, for every state; those that may give a
//! `Broken` or an `AllocError` may answer instead that memory was refused. After a fault, and after
//! such a refusal, the heap is as it was. What is only read is taken where it lies, and nothing is
//! shared or copied to look.
#![tactic(auto)]

mod changes;
mod comparing;
mod items;
mod making;
mod operators;
mod reading;
mod rooms;
mod truths;
mod walks;

pub use changes::{append, copied, extend, set_item};
pub use comparing::{equals, is_among};
pub use items::item;
pub use making::{collect, enter, keep, new_dict, new_list, new_tuple, place};
pub use operations::{Arithmetic, Defaults, Made, Method, State};
pub use operators::{add_in_place, calculate, compare, negate, plus};
pub use reading::{key_of, number_of, sequence_of, text_of};
pub use truths::truth;
pub use walks::{begin, end, tick};
