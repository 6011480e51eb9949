//! Laws of the definitions, which no code needs.
ghost use Rattle.std.specs.Prelude.{ℕ, List};
ghost use Rattle.board.specs.declared.journal.Journal.{Journal};
ghost use Rattle.board.specs.Rule.{first_words, blanks};
ghost use Rattle.board.specs.Lawful.{IsLawful, IsPlan, CountsAreDifferences};

/// In each lawful state the word of a node that no pass started is the number of its dependencies
/// less the edges into it that were delivered, and the count is the number of nodes less the
/// finished ones.
pub fn counts_are_differences()
    ensures { (plan : List (List ℕ)) (words : List ℕ) (journals : List Journal) → IsPlan plan
        → IsLawful plan words journals → CountsAreDifferences plan words journals }
{}

/// A new board is lawful: each node's word is the number of its dependencies, the count is the
/// number of nodes, the halt is 0, and no pass has done anything.
pub fn first_state_is_lawful()
    ensures { (plan : List (List ℕ)) (passes : ℕ)
        → IsLawful plan (first_words plan) (blanks plan passes) }
{}
