//! Reading on a thread with a small stack.
use std::alloc::Global;
use std::process::Abort;
use std::test::Fail;
use std::thread::{Builder, Threads};
use syntax::{FaultKind, FileKind, ParseStop, parse};

/// The longest text that a workspace may hold.
const LENGTH: usize = 1_048_576;

/// The stack on which each text is read and let go.
const STACK: usize = 512 * 1024;

/// What a text is.
#[derive(Clone, Copy, PartialEq, Eq)]
pub(crate) enum Verdict {
    Tree,
    Fault(FaultKind),
    NoMemory,
}

/// A text of the greatest length: a front, a part as often as there is room, and an end.
pub(crate) fn filled(alloc: Global, front: &str, part: &str, end: &str) -> Result<String, Fail> {
    let mut text = String::from_str(alloc, front)?;
    for _ in 0..LENGTH {
        if text
            .len()
            .saturating_add(part.len())
            .saturating_add(end.len())
            > LENGTH
        {
            break;
        }
        text.push_str(part)?;
    }
    text.push_str(end)?;
    Ok(text)
}

/// The same, where each part has its number between its two halves.
pub(crate) fn numbered(
    alloc: Global,
    front: &str,
    halves: (&str, &str),
    end: &str,
) -> Result<String, Fail> {
    let mut text = String::from_str(alloc, front)?;
    for i in 0..LENGTH {
        if text.len() > LENGTH - 64 {
            break;
        }
        let (before, behind) = halves;
        write!(text, "{before}{i}{behind}")?;
    }
    text.push_str(end)?;
    Ok(text)
}

/// A middle with something before it and something behind it, so many times.
pub(crate) fn nested(
    alloc: Global,
    before: &str,
    middle: &str,
    behind: &str,
    times: usize,
) -> Result<String, Fail> {
    let mut text = String::from_str(alloc, "x = ")?;
    for _ in 0..times {
        text.push_str(before)?;
    }
    text.push_str(middle)?;
    for _ in 0..times {
        text.push_str(behind)?;
    }
    Ok(text)
}

/// What a module of this text is. Its tree is let go.
fn read_and_let_go(alloc: Global, text: &str) -> Verdict {
    match parse(alloc, text, FileKind::Module) {
        Ok(_) => Verdict::Tree,
        Err(ParseStop::Fault(fault)) => Verdict::Fault(fault.kind),
        Err(ParseStop::NoMemory) => Verdict::NoMemory,
    }
}

/// Reads a module of this text on a thread with a small stack.
pub(crate) fn expect<R: Abort + Threads>(
    rt: &R,
    alloc: Global,
    text: String,
    want: Verdict,
) -> Result<(), Fail> {
    let front = String::from_str(alloc, text.get(..40).unwrap_or(text.as_str()))?;
    let reader = Builder::new().stack_size(STACK);
    let child = reader.spawn(rt, move || read_and_let_go(alloc, text.as_str()))?;
    let found = child.join(rt);
    assert!(rt; found == want, "{front}");
    Ok(())
}
