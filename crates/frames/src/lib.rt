//! Frames, and what each instruction does to one.
//!
//! A frame is a function that runs: its slots, its operands, what it will call, and its open walks
//! ([`Frame`]). What is done to values is done by a world that implements [`Operate`], of which
//! nothing is known here but its record of operations. Each instruction that touches one frame
//! alone is a function, exact against what the machine of crate `meaning` does.
//!
//! Errors: [`Stop`] has the kind of a fault with its file and line, or says that memory was
//! refused; `AllocError` says the latter alone. Frame and state are open then, and the run ends.
#![tactic(auto)]

mod calling;
mod defaults;
mod displays;
mod emptying;
mod frame;
mod items;
mod jumps;
mod names;
mod onward;
mod operators;
mod pushes;
mod slots;
mod stack;
mod stop;
mod taking;
mod walking;
mod world;

pub use calling::{callee_global, find, import, take_callee, unpack};
pub use defaults::Defaults;
pub use displays::{collect, enter, keep, make_list, make_tuple, new_dict};
pub use frame::{Callee, Frame, FunctionId, Walk};
pub use items::{field, item, item_above, set_added, set_item};
pub use jumps::{keep_if, keep_unless, skip, skip_unless};
pub use names::{
    clear_slots, drop_top, load_global, load_slot, store_global, store_loaded, store_slot,
    taken_from,
};
pub use operators::{increase, operate, operate_both, operate_on, signed};
pub use pushes::{push_builtin, push_none, push_number, push_text};
pub use slots::Slots;
pub use stack::Stack;
pub use stop::{Fault, Step, Stop, refused, stop_at};
pub use taking::{take, take_items};
pub use walking::{again, again_into, begin_walk, next_into, next_turn, stop_walk};
pub use world::{Operate, Refusal};
