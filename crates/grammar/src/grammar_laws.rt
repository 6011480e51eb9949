//! Laws of the grammar.

ghost use Rattle.std.specs.Prelude.{◌≡◌, List, Some};
ghost use Rattle.lexer.specs.Tokens.{Token};
ghost use Rattle.grammar.specs.Tree.{Expr};
ghost use Rattle.grammar.specs.Spelling.{Spells};
ghost use Rattle.grammar.specs.Reading.{reads};
ghost use Rattle.grammar.specs.Statements.{Form, SpellsForm};
ghost use Rattle.grammar.specs.FormReading.{form_reads};
ghost use Rattle.lexer.specs.Tokens.{Placed};
ghost use Rattle.grammar.specs.Places.{Place};
ghost use Rattle.grammar.specs.Blocks.{Block, SpellsFile};

/// Tokens have at most one tree of an expression.
pub fn expressions_have_one_tree()
    ensures { (ts : List Token) (t u : Expr) → Spells ts t → Spells ts u → t ≡ u }
{}

/// What is read of tokens is the tree of their expression, and what has a tree is read.
pub fn expressions_are_read()
    ensures sound { (ts : List Token) (t : Expr) → reads ts ≡ Some t → Spells ts t }
    ensures complete { (ts : List Token) (t : Expr) → Spells ts t → reads ts ≡ Some t }
{}

/// The tokens of a logical line have at most one form.
pub fn lines_have_one_form()
    ensures { (ts : List Token) (f g : Form) → SpellsForm ts f → SpellsForm ts g → f ≡ g }
{}

/// What is read of a logical line is its form, and what has a form is read.
pub fn lines_are_read()
    ensures sound { (ts : List Token) (f : Form) → form_reads ts ≡ Some f → SpellsForm ts f }
    ensures complete { (ts : List Token) (f : Form) → SpellsForm ts f → form_reads ts ≡ Some f }
{}

/// The logical lines of a file have at most one tree.
pub fn files_have_one_tree()
    ensures { (p : Place) (lines : List (List Placed)) (t u : Block) → SpellsFile p lines t
        → SpellsFile p lines u → t ≡ u }
{}
