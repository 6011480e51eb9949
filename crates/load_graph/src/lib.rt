//! Who loads whom: the modules of a workspace by path, the modules that load statements name, by
//! number, the line of a load cycle, and the order in which modules are evaluated.
#![tactic(auto)]

mod cycles;
mod paths;
mod plan;
mod rows;

pub use cycles::cycle_line;
pub use paths::Paths;
pub use plan::Plan;
pub use rows::row_of;
