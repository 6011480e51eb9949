//! What the definitions of cycles and outcomes mean, in a reader's words. These functions do
//! nothing; their contracts hold of every graph.
ghost use Rattle.std.specs.Prelude.{ℕ};
ghost use Rattle.edges.specs.Rows.{Rows};
ghost use Rattle.edges.specs.Outcomes.{TellsCycles, Step, Test};
ghost use Rattle.edges.specs.Outcomes.{AreLawful, AreAlone, FoundByWork};

/// The test by walks of bounded length tells exactly what is cyclic.
pub fn cycles_are_found_by_walks()
    ensures { (deps : Rows) → TellsCycles deps }
{}

/// A cyclic node's outcome says so, and any other's is the step over the outcomes of its
/// dependencies, in their order. No other function has both laws.
pub fn outcomes_are_by_edges<V>()
    ensures laws { (deps : Rows) (cycle : ℕ → V) (step : Step V) → AreLawful deps cycle step }
    ensures alone { (deps : Rows) (cycle : ℕ → V) (step : Step V) → AreAlone deps cycle step }
{}

/// Work that gives the step over what it found of a node's dependencies, wherever that fits, finds
/// the outcomes of all nodes, if these fit.
pub fn work_finds_outcomes<V>()
    ensures { (g : Rows) (cycle : ℕ → V) (step : Step V) (t : Test V) → FoundByWork g cycle step t }
{}
