//! Laws of the outlines of logical lines.

ghost use Rattle.std.specs.Prelude.{◌≡◌, ◌↔◌, ◌∷◌, ℕ, List, [], map, Err};
ghost use Rattle.grammar.specs.BlockReading.{file_reads};
ghost use Rattle.grammar.specs.Blocks.{Laid};
ghost use Rattle.grammar.specs.Places.{Place};
ghost use Rattle.statements.specs.Outlines.{outline_of, pass, place_of, top_level};

/// The outlines of logical lines tell at which of them a file is refused.
pub fn outlines_tell_the_fault()
    ensures { (p : Place) (lines : List Laid) (n : ℕ)
        → (file_reads p lines ≡ Err n) ↔ (pass (map outline_of lines) (top_level (place_of p) ∷ [])
        ≡ Err n) }
{}
