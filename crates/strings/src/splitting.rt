//! The parts of a text between occurrences of a separator.
ghost use Rattle.std.specs.Prelude.{◌≡◌, ◌<◌, ◌+◌, ◌∷◌, [], length, IfOk, MatchOption};
ghost use Rattle.std.specs.Prelude.{Some, None};
ghost use Rattle.strings.specs.Answers.{Answers};
ghost use Rattle.strings.specs.Splitting.{parts, split_of, count_within};

use crate::errors::{StringError, StringRefusal};
use plain::Text;
use std::alloc::{AllocError, Global};

/// How many items a list has at most.
const MOST_ITEMS: usize = 1_048_576;

/// The parts of a text of any bytes between occurrences of a separator, which are found from the
/// left without overlap. They are counted before any is made.
///
/// # Errors
///
/// `EmptySeparator`, and then `Large` where there are more parts than a list may have; `NoMemory`
/// where memory is refused.
pub fn split(alloc: Global, text: &str, separator: &str) -> Result<Vec<Text>, StringRefusal>
    ensures { Answers (λ ts. ts.items) (split_of separator.now text.now) result }
{
    if separator.is_empty() {
        return Err(StringRefusal::String(StringError::EmptySeparator));
    }
    match count(text, separator) {
        Some(room) => Ok(cut_all(alloc, text, separator, room)?),
        None => Err(StringRefusal::String(StringError::Large)),
    }
}

/// What stands before the first separator and what stands behind it.
fn cut<'a>(text: &'a str, separator: &str) -> Option<(&'a str, &'a str)>
    requires { 0 < length separator.now }
    ensures parts { MatchOption result (parts separator.now text.now ≡ text.now ∷ [])
        (λ x. parts separator.now text.now ≡ x.0.now ∷ parts separator.now x.1.now) }
    ensures shorter { MatchOption result (Unit {0}) (λ x. length x.1.now < length text.now) }
{
    text.split_once(separator)
}

/// How many parts there are; none where there are more than a list may have.
fn count(text: &str, separator: &str) -> Option<usize>
    requires { 0 < length separator.now }
    ensures { result ≡ count_within (parts separator.now text.now) }
{
    let mut rest = text;
    let mut parts = 1;
    while let Some((_, behind)) = cut(rest, separator) {
        if parts == MOST_ITEMS {
            return None;
        }
        parts += 1;
        rest = behind;
    }
    Some(parts)
}

/// The parts, each a text of its own.
fn cut_all(alloc: Global, text: &str, separator: &str, room: usize) -> Result<Vec<Text>, AllocError>
    requires { 0 < length separator.now }
    ensures { IfOk result (λ ts. ts.items ≡ parts separator.now text.now) }
{
    let mut parts = Vec::with_capacity(alloc, room)?;
    let mut rest = text;
    while let Some((part, behind)) = cut(rest, separator) {
        parts.push(Text::new(alloc, part)?)?;
        rest = behind;
    }
    parts.push(Text::new(alloc, rest)?)?;
    Ok(parts)
}
