//! What the work on one node is.
ghost use Rattle.std.specs.Prelude.{◌≡◌, ◌<◌, ℕ, List, map, IfOk};

use board::NoMemory;
use edges::NodeId;
use std::alloc::Global;

/// How the outcome of a node comes from the outcomes of its dependencies.
///
/// An implementation says in ghost members how many nodes there are, `nodes`; what the outcome is,
/// `step`, a function of the node and of its dependencies' outcomes, in their order; of which
/// outcomes this is promised, `fits`; and what the outcome of every cyclic node is, `cycle`. A call
/// is safe for all outcomes.
pub trait Analyse<V>: Sync {
    ghost nodes: { Self → ℕ };

    ghost step: { Self → ℕ → List V → V };

    ghost fits: { Self → ℕ → List V → Type 0 };

    ghost cycle: { Self → V };

    /// The outcome of a cyclic node. No worker is asked for it.
    ///
    /// # Errors
    ///
    /// `NoMemory` where memory was refused.
    fn cyclic(&self, alloc: Global) -> Result<V, NoMemory>
        ensures cycle { IfOk result (λ v. v ≡ cycle self.now) };

    /// The outcome of the node, where `values` are the outcomes of its dependencies, in order.
    ///
    /// # Errors
    ///
    /// `NoMemory` where memory was refused.
    fn analyse_one(&self, alloc: Global, n: NodeId, values: &[&V]) -> Result<V, NoMemory>
        requires node { n < nodes self.now }
        ensures step { let us = map (λ r. r.now) values.now in
            IfOk result (λ v. fits self.now n us → v ≡ step self.now n us) };
}
