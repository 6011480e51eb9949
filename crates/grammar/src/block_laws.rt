//! Laws of the lines of files and of their blocks.

ghost use Rattle.std.specs.Prelude.{◌≡◌, ◌≤◌, ℕ, List, map, Ok};
ghost use Rattle.lexer.specs.Tokens.{Placed};
ghost use Rattle.lexer.specs.LaidOut.{IsReading};
ghost use Rattle.grammar.specs.StatementFault.{RefusedAtFirst};
ghost use Rattle.grammar.specs.Places.{Place};
ghost use Rattle.grammar.specs.Blocks.{Block, SpellsFile, laid};
ghost use Rattle.grammar.specs.BlockReading.{file_reads};
ghost use Rattle.grammar.specs.Tree.{Expr};
ghost use Rattle.grammar.specs.Levels.{IsTree};
ghost use Rattle.grammar.specs.Depth.{depth};
ghost use Rattle.grammar.specs.Bare.{bare};
ghost use Rattle.grammar.specs.BareLines.{bare_lines};
ghost use Rattle.grammar.specs.Built.{built, made_lines};
ghost use Rattle.grammar.specs.BareDepth.{tree_depth, lines_depth};

/// What is read of the logical lines of a file is its tree, and what has a tree is read.
pub fn files_are_read()
    ensures sound { (p : Place) (lines : List (List Placed)) (b : Block)
        → file_reads p (map laid lines) ≡ Ok b → SpellsFile p lines b }
    ensures complete { (p : Place) (lines : List (List Placed)) (b : Block) → SpellsFile p lines b
        → file_reads p (map laid lines) ≡ Ok b }
{}

/// The logical lines of a text are refused at the first line with which they no longer begin a
/// file.
pub fn faults_are_the_first()
    ensures { (text : List ℕ) (lines : List (List Placed)) → IsReading text lines → (p : Place)
        → RefusedAtFirst p lines }
{}

/// Brackets alone and commas at the end add nothing to the depth of an expression, and in the lines
/// of a file none is more than 200 deep.
pub fn lines_are_shallow()
    ensures depth { (a : Expr) → IsTree a → depth a ≡ tree_depth (bare a) }
    ensures limit { (p : Place) (lines : List (List Placed)) (tree : Block)
        → SpellsFile p lines tree → lines_depth (bare_lines tree) ≤ 200 }
{}

/// The lines of a file that has a tree, put into their blocks from the last to the first, are those
/// of its tree.
pub fn lines_are_put_into_blocks()
    ensures { (p : Place) (lines : List (List Placed)) (tree : Block)
        → file_reads p (map laid lines) ≡ Ok tree
        → built (made_lines (map laid lines)) ≡ bare_lines tree }
{}
