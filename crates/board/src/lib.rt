//! Readiness words and result cells of a dependency graph, shared by threads.
//!
//! A [`Board`] is made over a [`Plan`], which gives each node's dependencies. It has one atomic
//! word a node, which counts the edges that are missing and becomes a mark once the node is
//! started; one word that counts unfinished nodes; one word for the halt; and a result cell a node,
//! which is set once. Each thread works with a [`Pass`] of its own. What every contract speaks of
//! is the pass's journal: what it started, delivered, readied, finished and saw.
//! `specs/Lawful.antt` has the law that the words and the journals of all passes meet after every
//! step.
//!
//! No call waits, and none is tried again. Memory is taken in `new`, `over` and `publish` alone.
#![tactic(auto)]

mod answers;
mod board;
mod closed;
mod closing;
mod copying;
mod flags;
mod journal;
mod key;
mod laws;
mod memory;
mod opening;
mod pass;
mod plan;
mod plays;
mod seats;
mod steps;
mod table;

pub use answers::{NoMemory, NotReady, Readiness};
pub use board::Board;
pub use closed::Closed;
pub use journal::Journal;
pub use laws::{counts_are_differences, first_state_is_lawful};
pub use pass::{Pass, Published};
pub use plan::Plan;
