//! What freezing comes to, as a law of its definition.
ghost use Rattle.std.specs.Prelude.{◌≡◌, List, ℕ, Ok};
ghost use Rattle.values.specs.Shape.{value_of};
ghost use Rattle.ticks.specs.Ticking.{Count};
ghost use Rattle.values.specs.View.{FrozenTree};
ghost use Rattle.values.specs.declared.cells.Cell.{Cell as Kept};
ghost use Rattle.visits.specs.Freeze.{freeze_at};

/// Freezing what is frozen, where it succeeds, gives it back.
pub fn frozen_values_freeze_to_themselves()
    ensures { (levels : ℕ) (h : List Kept) (t u : FrozenTree) (before after : Count) →
        freeze_at levels h (value_of t) before ≡ Ok (u, after) → u ≡ t }
{}
