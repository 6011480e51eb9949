//! What plain listings change: nothing. This function does nothing; its contract holds of all
//! linked files and places.
ghost use Rattle.std.specs.Prelude.{List, ℕ};
ghost use Rattle.one_tree.specs.Found.{Set};
ghost use Rattle.plain_language.specs.Laws.{OperationsArePlain, CallsArePlain, TopLevelsArePlain};

/// On what an evaluation has seen, in which an id has one tree, each operation does the same by
/// plain listings; and so does each call and each top level, where the linked files and the place
/// keep that.
pub fn listings_are_plain<W>()
    ensures operations { (owner : List ℕ) (base : List Set) (in_work : W → List Set)
        → OperationsArePlain owner base in_work }
    ensures calls { (owner : List ℕ) (base : List Set) (in_work : W → List Set)
        → CallsArePlain owner base in_work }
    ensures top_levels { (owner : List ℕ) (base : List Set) (in_work : W → List Set)
        → TopLevelsArePlain owner base in_work }
{}
