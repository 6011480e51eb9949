//! Laws of the forms of logical lines, as they are read with the limit on the depth.

ghost use Rattle.grammar.specs.FormDescent.{reads_form};
ghost use Rattle.grammar.specs.LineForm.{IsLineForm};
ghost use Rattle.lexer.specs.Tokens.{Token};
ghost use Rattle.std.specs.Prelude.{List};

/// What is read of the tokens of a logical line with the limit on the depth is the form that they
/// have, if none of its expressions is deeper.
pub fn forms_are_read_within_the_limit()
    ensures { (ts : List Token) → IsLineForm ts (reads_form ts) }
{}
