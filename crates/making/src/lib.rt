//! What an evaluation makes: depsets, each with the next serial of its owner, and instances of
//! providers; and the names of its top level.
//!
//! Each call does what its definition in `operations` says, for every state, or answers that memory
//! was refused; after a fault, and after such a refusal, the heap and the number of depsets are as
//! they were.
#![tactic(auto)]

mod depset_calls;
mod instances;
mod listings;
mod names;
mod parts;

pub use depset_calls::{depset, new_depset};
pub use instances::{
    construct, default_info, field, field_operand, given_for, has_only_files, value_at,
};
pub use listings::to_list;
pub use names::{define, name_value, set_global, set_loaded};
