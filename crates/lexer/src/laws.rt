//! What the definitions of the syntax come to, as laws of every text.

ghost use Rattle.std.specs.Prelude.{◌≡◌, ◌≢◌, ◌+◌, ◌↔◌, List, ℕ, ◌∷◌, Ok, Err};
ghost use Rattle.lexer.specs.Characters.{newline};
ghost use Rattle.lexer.specs.Tokens.{Placed};
ghost use Rattle.lexer.specs.Tokens as parts;
ghost use Rattle.lexer.specs.Begins.{begins, token, nothing};
ghost use Rattle.lexer.specs.Scan.{tokens_of};
ghost use Rattle.lexer.specs.Lines.{reading};
ghost use Rattle.lexer.specs.Fits.{Fits, IsLongest};
ghost use Rattle.lexer.specs.Parts.{IsTokens};
ghost use Rattle.lexer.specs.LaidOut.{IsReading};

use crate::fault::SyntaxFault;

/// What begins at a byte is the longest token that fits there, and nothing begins only where none
/// fits.
pub fn tokens_are_the_longest_that_fit()
    ensures longest { (b : ℕ) (bs : List ℕ) (t : parts.Token) (n : ℕ) →
        (begins b bs ≡ token t n) ↔ IsLongest (b ∷ bs) (n + 1) t }
    ensures none { (b : ℕ) (bs : List ℕ) → begins b bs ≡ nothing →
        (n : ℕ) (t : parts.Token) → ¬ Fits (b ∷ bs) n t }
    ensures only { (b : ℕ) (bs : List ℕ) → b ≢ 32 → b ≢ newline → b ≢ 35 →
        ((n : ℕ) (t : parts.Token) → ¬ Fits (b ∷ bs) n t) → begins b bs ≡ nothing }
{}

/// The tokens that are found in a text are those of the parts that it consists of, and these are
/// settled by the text.
pub fn tokens_are_those_of_the_parts()
    ensures same { (text : List ℕ) (tokens : List Placed) →
        (tokens_of text ≡ Ok tokens) ↔ IsTokens text tokens }
    ensures one { (text : List ℕ) (a b : List Placed) →
        IsTokens text a → IsTokens text b → a ≡ b }
{}

/// A text is read as these lines exactly where they are its reading, and refused only where it has
/// none.
pub fn reads_what_is_laid_out()
    ensures sound { (text : List ℕ) (lines : List (List Placed)) →
        reading text ≡ Ok lines → IsReading text lines }
    ensures complete { (text : List ℕ) (lines : List (List Placed)) →
        IsReading text lines → reading text ≡ Ok lines }
    ensures refused { (text : List ℕ) (f : SyntaxFault) (lines : List (List Placed)) →
        reading text ≡ Err f → ¬ IsReading text lines }
{}

/// Every text has at most one reading.
pub fn at_most_one_reading()
    ensures { (text : List ℕ) (a b : List (List Placed)) →
        IsReading text a → IsReading text b → a ≡ b }
{}
