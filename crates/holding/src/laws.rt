//! What the operations of the language keep. This function does nothing; its contract holds of all
//! linked files and places.
ghost use Rattle.std.specs.Prelude.{List, ℕ};
ghost use Rattle.one_tree.specs.Found.{Set};
ghost use Rattle.holding.specs.Places.{OperationsKeep};

/// Each operation of the language keeps one tree for an id, where the linked files and the place
/// do.
pub fn operations_keep_one_tree<W>()
    ensures { (owner : List ℕ) (base : List Set) (in_work : W → List Set)
        → OperationsKeep owner base in_work }
{}
