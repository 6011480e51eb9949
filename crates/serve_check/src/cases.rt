//! Stored requests, with what is wanted of them.

use serde_json::Value;
use std::alloc::{AllocError, Global};

/// A request, and what is wanted of it.
#[derive(Drop)]
pub struct Case<'a> {
    /// What the case is called.
    pub name: &'a str,
    /// The words of the command line, the program's name first.
    pub words: Vec<&'a str>,
    /// What standard input has.
    pub input: Vec<u8>,
    /// The report that is wanted.
    pub report: &'a str,
    /// The exit status that is wanted.
    pub status: u64,
    /// The line on standard error that is wanted, without its newline.
    pub line: &'a str,
}

/// The program's name, and after it the words of an array of strings.
fn words_of(alloc: Global, item: &Value) -> Result<Option<Vec<&str>>, AllocError> {
    let Some(items) = item.as_array() else {
        return Ok(None);
    };
    let mut words = Vec::new(alloc);
    words.push("bzlan")?;
    for item in items {
        let Some(word) = item.as_str() else {
            return Ok(None);
        };
        words.push(word)?;
    }
    Ok(Some(words))
}

/// The byte that a number is.
fn byte_of(item: &Value) -> Option<u8> {
    match item.as_u64() {
        Some(n) if n < 256 => Some(n as u8),
        _ => None,
    }
}

/// Appends a part of an input, a byte or a text with the number of times that it stands there;
/// false where it is neither.
fn put_part(bytes: &mut Vec<u8>, part: &Value) -> Result<bool, AllocError> {
    if let Some(byte) = byte_of(part) {
        bytes.push(byte)?;
        return Ok(true);
    }
    let Some(pair) = part.as_array() else {
        return Ok(false);
    };
    let [text, times] = pair.as_slice() else {
        return Ok(false);
    };
    let (Some(text), Some(times)) = (text.as_str(), times.as_u64()) else {
        return Ok(false);
    };
    for _ in 0..times {
        bytes.extend_from_slice(text.as_bytes())?;
    }
    Ok(true)
}

/// The bytes of a string, or of an array of parts.
fn bytes_of(alloc: Global, item: &Value) -> Result<Option<Vec<u8>>, AllocError> {
    if let Some(text) = item.as_str() {
        return Ok(Some(Vec::from_slice(alloc, text.as_bytes())?));
    }
    let Some(parts) = item.as_array() else {
        return Ok(None);
    };
    let mut bytes = Vec::new(alloc);
    for part in parts {
        if !put_part(&mut bytes, part)? {
            return Ok(None);
        }
    }
    Ok(Some(bytes))
}

/// The case that an array of six is; None where it isn't of this form.
///
/// # Errors
///
/// `AllocError` where memory was refused.
pub fn case_of(alloc: Global, item: &Value) -> Result<Option<Case<'_>>, AllocError> {
    let Some(parts) = item.as_array() else {
        return Ok(None);
    };
    let [name, words, input, report, status, line] = parts.as_slice() else {
        return Ok(None);
    };
    let Some(words) = words_of(alloc, words)? else {
        return Ok(None);
    };
    let Some(input) = bytes_of(alloc, input)? else {
        return Ok(None);
    };
    match (
        name.as_str(),
        report.as_str(),
        status.as_u64(),
        line.as_str(),
    ) {
        (Some(name), Some(report), Some(status), Some(line)) => Ok(Some(Case {
            name,
            words,
            input,
            report,
            status,
            line,
        })),
        _ => Ok(None),
    }
}
