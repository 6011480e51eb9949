//! What an implementation function sees while it runs, as the place of an evaluation.
//!
//! `specs/Implementations` makes of the definitions of `contexts` the record over which the
//! language has its meaning in the call of an implementation (`language`), and what such a call
//! brings to the run of a workspace (`evaluation`). [`ImplementationPlace`] is that place. By the
//! methods of `ctx.actions` an implementation declares Files and registers actions: each such call
//! does what its definition in `contexts` says, or answers that memory was refused.
#![tactic(auto)]

mod calling;
mod declaring;
mod inputs;
mod methods;
mod mnemonics;
mod parts;
mod place;
mod programs;
mod registering;
mod running;

pub use mnemonics::Mnemonics;
pub use place::ImplementationPlace;
