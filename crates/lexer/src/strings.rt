//! String literals: where a body ends, and the bytes that it stands for.

ghost use Rattle.std.specs.Prelude.{◌≡◌, ◌↔◌, ◌≤◌, ◌<◌, ◌==◌, ◌&&◌, ◌∷◌, ◌++◌, ℕ, List, [], length};
ghost use Rattle.std.specs.Prelude.{drop, slice_get, Some, IsTrue, IfSome, IfOk, MatchOption, not};
ghost use Rattle.std.specs.Prelude.{bytes_eq, false, string_bytes};
ghost use Rattle.std.specs.Option.{option_map_or};
ghost use Rattle.std.specs.Str.{IsAscii};
ghost use Rattle.lexer.specs.Strings.{is_quote, is_escape, body_length, backslash, unescaped};
ghost use Rattle.lexer.specs.Strings.{escape_meaning, meaning_of};

use std::alloc::{AllocError, Global};

/// Whether a string begins and ends with this byte.
pub(crate) fn is_quote(b: u8) -> bool
    ensures { result ≡ is_quote b }
{
    matches!(b, b'"' | b'\'')
}

/// Whether a backslash may stand before this byte.
fn is_escape(b: u8) -> bool
    ensures { result ≡ is_escape b }
{
    matches!(b, b'n' | b't' | b'\\' | b'"' | b'\'')
}

/// The number of bytes up to the closing quote, where the string is closed on its line and has no
/// other escape.
pub(crate) fn body_length(quote: u8, rest: &[u8]) -> Option<usize>
    ensures value { result ≡ body_length quote false rest.now }
    ensures within { IfSome result (λ n. n < length rest.now) }
{
    let mut escaped = false;
    for (place, b) in rest.iter().enumerate() {
        let b = *b;
        if escaped {
            if !is_escape(b) {
                return None;
            }
            escaped = false;
        } else if b == quote {
            return Some(place);
        } else if b == b'\n' {
            return None;
        } else {
            escaped = b == b'\\';
        }
    }
    None
}

/// The byte that an escape stands for, by the byte after its backslash.
fn escape_meaning(b: u8) -> u8
    ensures { result ≡ escape_meaning b }
{
    match b {
        b'n' => b'\n',
        b't' => b'\t',
        _ => b,
    }
}

/// What a byte of a body stands for; nothing where it is the backslash of an escape.
fn meaning(escaped: bool, b: u8) -> Option<u8>
    ensures value { MatchOption result (meaning_of escaped b ≡ [])
        (λ m. meaning_of escaped b ≡ m ∷ []) }
    ensures ascii { b < 128 → IfSome result (λ m. m < 128) }
{
    if escaped {
        Some(escape_meaning(b))
    } else if b == b'\\' {
        None
    } else {
        Some(b)
    }
}

/// Appends what a byte of a body stands for.
fn push_meaning(text: &mut String, escaped: bool, b: u8) -> Result<(), AllocError>
    requires { b < 128 }
    ensures { IfOk result (λ _. string_bytes text.new
        ≡ string_bytes text.old ++ meaning_of escaped b) }
{
    if let Some(meant) = meaning(escaped, b) {
        text.push(char::from(meant))?;
    }
    Ok(())
}

/// The text that the body of a string literal stands for, its escapes read.
///
/// # Errors
///
/// Memory was refused.
pub fn unescape(alloc: Global, body: &[u8]) -> Result<String, AllocError>
    requires { IsAscii body.now }
    ensures { IfOk result (λ s. string_bytes s ≡ unescaped body.now) }
{
    let mut text = String::new(alloc);
    let mut escaped = false;
    for b in body {
        push_meaning(&mut text, escaped, *b)?;
        escaped = escapes(escaped, *b);
    }
    Ok(text)
}

fn is_at(bytes: &[u8], place: usize, b: u8) -> bool
    ensures { IsTrue result ↔ (slice_get bytes.now place ≡ Some b) }
{
    place < bytes.len() && bytes[place] == b
}

/// Whether the byte after this one is that of an escape.
fn escapes(escaped: bool, b: u8) -> bool
    ensures { result ≡ (not escaped && b == backslash) }
{
    !escaped && b == b'\\'
}

/// The place behind what a byte of a body stands for, where the bytes go on with that.
fn passed(bytes: &[u8], place: usize, escaped: bool, b: u8) -> Option<usize>
    requires { place ≤ length bytes.now }
    ensures within { IfSome result (λ next. next ≤ length bytes.now) }
    ensures value { (rest : List ℕ) → bytes_eq (meaning_of escaped b ++ rest) (drop place bytes.now)
        ≡ option_map_or (λ next. bytes_eq rest (drop next bytes.now)) result false }
{
    match meaning(escaped, b) {
        None => Some(place),
        Some(meant) => {
            if is_at(bytes, place, meant) {
                Some(place + 1)
            } else {
                None
            }
        }
    }
}

/// Whether the body of a string literal stands for these bytes, its escapes read.
pub fn stands_for(body: &[u8], bytes: &[u8]) -> bool
    ensures { result ≡ bytes_eq (unescaped body.now) bytes.now }
{
    let mut escaped = false;
    let mut place = 0;
    for b in body {
        match passed(bytes, place, escaped, *b) {
            Some(next) => place = next,
            None => return false,
        }
        escaped = escapes(escaped, *b);
    }
    place == bytes.len()
}
