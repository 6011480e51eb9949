//! How high nodes stand above those that they depend on, and their order by height: what is
//! evaluated after what.
#![tactic(auto)]

mod heights;
mod order;

pub use heights::heights_of;
pub use order::order_by;
