//! What names hold, by number; where a value of code is stored; and what an operation made, as an
//! operand.
//!
//! An operand ([`values::Operand`]) is lent where its value lies in what lives longer, such as a
//! linked module: reading it touches no count that other threads touch. To a contract it is the
//! value.
#![tactic(auto)]

mod bindings;
mod operand;
mod stored;

pub use bindings::Bindings;
pub use operand::owned;
pub use stored::Stored;
pub use values::Operand;
