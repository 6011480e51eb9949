//! What coherence along the edges of a graph means. These functions do nothing; their contracts
//! hold of every graph.

ghost use Rattle.std.specs.Prelude.{Bool, ℕ};
ghost use Rattle.coherence.specs.Laws.{Told, KeptByEach, HandedFits, FirstJoins};

/// Where the outcome of each node is coherent with what the node was given, and what is new in it
/// is the node's own, all outcomes of the graph together are coherent; so what each node is handed
/// is coherent, and fresh for it.
pub fn outcomes_are_coherent_together<N, V, D, I, O>()
    ensures all { (g : Told N V D I O) → KeptByEach g }
    ensures fits { (g : Told N V D I O) → HandedFits g }
{}

/// A depset with serial 0, as of a source file or of a missing `DefaultInfo`, is coherent with what
/// an evaluation of its owner made, which counts from 1.
pub fn a_first_depset_joins<D, I, O>()
    ensures { (i : D → I) (o : I → O) (n : I → ℕ) (x : O) (g m : D → Bool)
        → FirstJoins i o n x g m }
{}
