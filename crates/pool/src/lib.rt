//! Workers that find the outcome of every node of a graph, each node after its dependencies.
//! Cyclic nodes have their outcome without a worker.
//!
//! [`run`] has up to 64 workers: one in the thread that calls, the others in threads of their own.
//! Workers take the numbers of nodes from a [`Shelf`], and do what [`Analyse`] says on each, over a
//! board that all of them share. Whenever `run` answers `Ok`, each node has the outcome that the
//! plain recursion along edges gives, whichever worker ran which node and in whatever order.
#![tactic(auto)]

mod analyse;
mod gate;
mod gathered;
mod idle;
mod opening;
mod running;
mod threads;
mod worker;

pub use analyse::Analyse;
pub use board::NoMemory;
pub use edges::{Edges, NodeId};
pub use gate::{Gate, NoGate};
pub use gathered::Gathered;
pub use opening::open_board;
pub use parallel::Workers;
pub use running::{Refused, run, run_on};
pub use shelves::{LockShelf, Shelf, StealShelf};
