//! What the bytes that are written come to, as a law.

ghost use Rattle.std.specs.Prelude.{◌≡◌, ◌≤◌, ℕ, List, IsUtf8, length};
ghost use Rattle.packing.specs.Inputs.{input_text};
ghost use Rattle.request.specs.Input.{Spells, input_limit};
ghost use Rattle.workspace.specs.Workspaces.{IsWorkspace, Pair};

/// The bytes that are written for a workspace spell it, if they are within the limit, and an input
/// spells no other workspace: so what is written is read as that workspace.
pub fn inputs_spell_their_workspace()
    ensures spells { (pairs : List Pair) → IsWorkspace pairs → IsUtf8 (input_text pairs)
        → length (input_text pairs) ≤ input_limit → Spells (input_text pairs) pairs }
    ensures once { (input : List ℕ) (a b : List Pair) → Spells input a → Spells input b
        → a ≡ b }
{}
