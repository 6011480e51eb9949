//! What calls of a board answer.

/// `start`'s refusal: the node was started already, or an edge into it is missing.
#[derive(Debug, Drop)]
pub struct NotReady;

/// The allocator refused memory.
#[derive(Debug, Drop)]
pub struct NoMemory;

/// What a delivery found.
#[derive(Clone, Copy, Debug, PartialEq, Eq)]
pub enum Readiness {
    /// It was the last edge into the user, which can be started now. One delivery alone is told so.
    Ready,
    /// Other edges are still missing.
    Waiting,
}
