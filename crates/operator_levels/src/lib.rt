//! The levels of operators: how many of one level may follow one another.
#![tactic(auto)]

ghost use Rattle.std.specs.Prelude.{◌≡◌};
ghost use Rattle.grammar.specs.Descent as spec;

// The level of comparisons, as those of the grammar are counted.
const COMPARISON: usize = 5;

/// How many operators of a level may follow one another, where there may be `most`: comparisons are
/// not chained.
///
/// The clause holds whatever reads the expressions inside of others.
pub fn in_a_row(level: usize, most: usize) -> usize
    ensures { result ≡ spec.in_a_row (spec.read 0) most level }
{
    if level == COMPARISON { 1 } else { most }
}
