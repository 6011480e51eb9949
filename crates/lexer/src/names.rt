//! Texts that are names by themselves, as those of fields and attributes.

ghost use Rattle.std.specs.Prelude.{◌≡◌, ◌↔◌, true};
ghost use Rattle.lexer.specs.Fits.{Spells};
ghost use Rattle.lexer.specs.Tokens.{name};

use crate::begins::{Beginning, begins};
use crate::token::Kind;

/// Whether a text is a name: a letter or `_`, then letters, digits and `_`, and no word of the
/// language, nor one that is kept free. `None`, `True` and `False` are names.
pub fn is_name(text: &str) -> bool
    ensures { (result ≡ true) ↔ Spells text.now (name text.now) }
{
    let bytes = text.as_bytes();
    if bytes.is_empty() {
        return false;
    }
    let Beginning::Token(kind, more) = begins(bytes, 0) else {
        return false;
    };
    match kind {
        Kind::Name(_) => more + 1 == bytes.len(),
        _ => false,
    }
}
