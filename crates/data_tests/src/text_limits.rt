//! What is one too many, and what is far too many.
use plain::Text;
use std::alloc::{AllocError, Global};
use strings::{AsciiText, MOST_BYTES, StringError, StringRefusal, join, split};

/// So many bytes `,`.
fn commas(alloc: Global, bytes: usize) -> Result<String, AllocError> {
    let mut text = String::with_capacity(alloc, bytes)?;
    for _ in 0..bytes {
        text.push_str(",")?;
    }
    Ok(text)
}

/// A text of so many bytes `,`.
fn comma_text(alloc: Global, bytes: usize) -> Result<AsciiText, StringRefusal> {
    AsciiText::from_text(Text::from_string(commas(alloc, bytes)?)?).ok_or(StringRefusal::NoMemory)
}

/// How many parts the greatest text of commas has, cut at so many commas.
fn parts(alloc: Global, separator: usize) -> Result<usize, StringRefusal> {
    let separator = comma_text(alloc, separator)?;
    let greatest = comma_text(alloc, MOST_BYTES)?;
    let parts = split(alloc, greatest.as_str(), separator.as_str())?;
    Ok(parts.len())
}

/// Whether so much is refused as too large.
fn is_too_large(answer: Result<usize, StringRefusal>) -> bool {
    matches!(answer, Err(StringRefusal::String(StringError::Large)))
}

#[test]
fn texts_and_lists_past_their_limits(rt: HostRuntime) {
    let alloc = rt.alloc();
    assert!(rt;
        comma_text(alloc, MOST_BYTES + 1).is_err()
            && matches!(parts(alloc, MOST_BYTES), Ok(2))
            && is_too_large(parts(alloc, 1))
    );
}

/// So many names of one text as a list may have.
fn many(alloc: Global, text: &Text) -> Result<Vec<&Text>, AllocError> {
    let mut parts = Vec::with_capacity(alloc, MOST_BYTES)?;
    for _ in 0..MOST_BYTES {
        parts.push(text)?;
    }
    Ok(parts)
}

fn joins_many(alloc: Global, greatest: &Text) -> Result<usize, StringRefusal> {
    let parts = many(alloc, greatest)?;
    let joined = join(alloc, greatest.as_str(), &parts)?;
    Ok(joined.len())
}

fn joins(alloc: Global) -> Result<usize, StringRefusal> {
    let greatest = comma_text(alloc, MOST_BYTES)?;
    joins_many(alloc, greatest.as_text())
}

#[test]
fn a_join_of_2_to_the_40_bytes_is_refused_at_once(rt: HostRuntime) {
    assert!(rt; is_too_large(joins(rt.alloc())));
}
