//! Texts with a separator between them.
ghost use Rattle.std.specs.Prelude.{◌≡◌, ◌++◌, length, map, string_bytes, IfOk, OnOk};
ghost use Rattle.strings.specs.Answers.{Answers};
ghost use Rattle.strings.specs.Joining.{glued, join_of, length_within};

use crate::errors::{StringError, StringRefusal};
use crate::text::MOST_BYTES;
use plain::Text;
use std::alloc::{AllocError, Global};

/// These texts, of any bytes, with the separator between each and the next. How long the whole is,
/// is known before it is made.
///
/// # Errors
///
/// `Large` past the limit; `NoMemory` where memory is refused.
pub fn join(alloc: Global, separator: &str, parts: &[&Text]) -> Result<Text, StringRefusal>
    ensures { Answers (λ t. t) (join_of separator.now (map (λ p. p.now) parts.now)) result }
{
    let Some(length) = joined_length(separator, parts) else {
        return Err(StringRefusal::String(StringError::Large));
    };
    let text = joined(alloc, separator, parts, length)?;
    Ok(Text::from_string(text)?)
}

/// How many bytes they have together; none past the limit.
fn joined_length(separator: &str, parts: &[&Text]) -> Option<usize>
    ensures { result ≡ length_within (glued separator.now (map (λ p. p.now) parts.now)) }
{
    let Some((first, others)) = parts.split_first() else {
        return Some(0);
    };
    let between = separator.len();
    let mut length = first.len();
    if length > MOST_BYTES {
        return None;
    }
    for part in others {
        length = length.saturating_add(between).saturating_add(part.len());
        if length > MOST_BYTES {
            return None;
        }
    }
    Some(length)
}

/// Their bytes.
fn joined(
    alloc: Global,
    separator: &str,
    parts: &[&Text],
    length: usize,
) -> Result<String, AllocError>
    ensures { IfOk result
        (λ t. string_bytes t ≡ glued separator.now (map (λ p. p.now) parts.now)) }
{
    let mut text = String::with_capacity(alloc, length)?;
    let Some((first, others)) = parts.split_first() else {
        return Ok(text);
    };
    text.push_str(first.as_str())?;
    for part in others {
        put(&mut text, separator, part)?;
    }
    Ok(text)
}

/// Puts a text behind a separator.
fn put(text: &mut String, separator: &str, part: &Text) -> Result<(), AllocError>
    ensures { OnOk result
        (string_bytes text.new ≡ string_bytes text.old ++ separator.now ++ part.now) }
{
    text.push_str(separator)?;
    text.push_str(part.as_str())?;
    Ok(())
}
