//! What a caller may have done at the work on each node.
use edges::NodeId;

/// Calls that a worker makes round its work on a node: `enter` before the node is analysed, `leave`
/// after its outcome was published.
///
/// All workers share one gate. What it does decides nothing about outcomes; it may count nodes, or
/// hold a worker up.
pub trait Gate: Sync {
    /// The work on the node begins.
    fn enter(&self, n: NodeId);

    /// The outcome of the node was published.
    fn leave(&self, n: NodeId);
}

/// The gate that does nothing.
pub struct NoGate;

impl Gate for NoGate {
    fn enter(&self, _n: NodeId) {}

    fn leave(&self, _n: NodeId) {}
}
