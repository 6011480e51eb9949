//! The operations of the language over true values: what the machine runs on.
//!
//! [`World`] joins the linked files and the place of an evaluation, and implements
//! [`frames::Operate`] over a state with the work of the place. Each method is the operation of the
//! record in crate `language`, exact for every state.
#![tactic(auto)]

mod binding;
mod calling;
mod finding_callees;
mod functions;
mod left;
mod looks;
mod operating;
mod stacks;
mod turns;
mod world;

pub use functions::function_id;
pub use left::Left;
pub use world::World;
