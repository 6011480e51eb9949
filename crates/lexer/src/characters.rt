//! The first pass: each byte of a file is a character.

ghost use Rattle.std.specs.Prelude.{◌≡◌, ◌≤◌, ◌<◌, length, position, not, IfSome};
ghost use Rattle.lexer.specs.Characters.{character_fault, line_at, is_character};

/// Whether a file may hold this byte.
fn is_character(b: u8) -> bool
    ensures { result ≡ is_character b }
{
    matches!(b, 0x20..=0x7e | b'\n')
}

/// The number of the line in which a place of the text lies.
fn line_at(text: &[u8], place: usize) -> usize
    requires { place ≤ length text.now }
    ensures { result ≡ line_at text.now place }
{
    text[..place].iter().filter(|b| **b == b'\n').count() + 1
}

/// The place of the first byte that is no character.
fn first_foreign(text: &[u8]) -> Option<usize>
    ensures value { result ≡ position (λ b. not (is_character b)) text.now }
    ensures within { IfSome result (λ i. i < length text.now) }
{
    text.iter().position(|b| !is_character(*b))
}

/// The line of the first byte that is no character.
pub(crate) fn character_fault(text: &[u8]) -> Option<usize>
    ensures { result ≡ character_fault text.now }
{
    match first_foreign(text) {
        Some(place) => Some(line_at(text, place)),
        None => None,
    }
}
