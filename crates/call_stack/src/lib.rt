//! The call stack: the calls that are running, and what is known of each.
//!
//! A run is the frame of the function that runs, those of its callers, and the functions that are
//! active ([`Running`]). A call binds its arguments ([`Arguments`]) to the slots of a new frame: by
//! position, by name and by default. The codes of the functions that can be called are linked
//! ([`Linked`]). Each instruction that calls a function, makes one or can end one is a function
//! here, exact against what the machine of crate `meaning` does; those that touch one frame alone
//! are crate `frames`, and the loop over instructions is crate `machine`.
//!
//! Errors: [`frames::Stop`] has the kind of a fault with its file and line, or says that memory was
//! refused; `AllocError` says the latter alone. What runs and the state are open then, and the run
//! ends.
#![tactic(auto)]

mod active;
mod calling;
mod filling;
mod linked;
mod running;

pub use active::Active;
pub use calling::{Arguments, Called, Place, call, call_function, frame_at_entry};
pub use filling::unset;
pub use linked::Linked;
pub use running::{
    Running, again, again_into, call_with, define, give_back, give_back_from, stop_walk,
};
