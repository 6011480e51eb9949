//! What holds of all outcomes of a workspace. These functions do nothing; their contracts hold of
//! every workspace.
ghost use Rattle.outcomes.specs.Laws.{AreByDependencies, AreCoherentTogether, FitEach};

/// A cyclic label has the outcome that says so, and any other that of the step over the outcomes of
/// its dependencies.
pub fn outcomes_are_by_dependencies()
    ensures { AreByDependencies }
{}

/// Where the call of an implementation keeps coherence, and the modules' depsets are coherent and
/// no label's, all of these and all outcomes together are coherent; and what a label is handed is
/// coherent, and fresh for it.
pub fn outcomes_are_coherent()
    ensures all { AreCoherentTogether }
    ensures fits { FitEach }
{}
