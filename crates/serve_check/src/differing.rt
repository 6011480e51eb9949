//! What of an answer isn't as wanted.

use crate::cases::Case;
use crate::serving::answered;
use serve::closing;
use std::alloc::{AllocError, Global};
use std::sync::Wait;
use std::thread::Threads;

/// The numbers of workers that a request is served by besides its own, as words ask for them.
const NUMBERS: [&str; 3] = ["--workers=1", "--workers=2", "--workers=64"];

/// The first answer to a case that isn't as wanted.
#[derive(Drop)]
pub struct Difference {
    /// What differs: the report, the status or the line.
    pub part: &'static str,
    /// The word that the number of workers was asked for by; none for the words as they stand.
    pub workers: Option<&'static str>,
}

/// What of the answer to words differs from what a case wants.
fn differing<R: Threads + Wait + Sync>(
    rt: &R,
    alloc: Global,
    case: &Case<'_>,
    words: &[&str],
) -> Option<&'static str> {
    let served = answered(rt, alloc, words, case.input.as_slice());
    let (status, line) = closing(&served.ending);
    if served.report.as_slice() != case.report.as_bytes() {
        Some("report")
    } else if status as u64 != case.status {
        Some("status")
    } else if line != case.line {
        Some("line")
    } else {
        None
    }
}

/// The words, but for their number of workers.
fn with_workers<'a>(
    alloc: Global,
    words: &[&'a str],
    workers: &'a str,
) -> Result<Vec<&'a str>, AllocError> {
    let mut others = Vec::new(alloc);
    let mut is_number = false;
    for word in words {
        if is_number {
            is_number = false;
        } else if *word == "--workers" {
            others.push(workers)?;
            is_number = true;
        } else if word.starts_with("--workers=") {
            others.push(workers)?;
        } else {
            others.push(*word)?;
        }
    }
    Ok(others)
}

/// The first answer to a case that isn't as wanted: as its words stand, or, where these aren't to
/// be refused, by other numbers of workers.
///
/// # Errors
///
/// `AllocError` where memory was refused.
pub fn first_difference<R: Threads + Wait + Sync>(
    rt: &R,
    alloc: Global,
    case: &Case<'_>,
) -> Result<Option<Difference>, AllocError> {
    if let Some(part) = differing(rt, alloc, case, case.words.as_slice()) {
        return Ok(Some(Difference {
            part,
            workers: None,
        }));
    }
    if case.line == "bzlan: words refused" {
        return Ok(None);
    }
    for workers in NUMBERS {
        let words = with_workers(alloc, case.words.as_slice(), workers)?;
        if let Some(part) = differing(rt, alloc, case, words.as_slice()) {
            return Ok(Some(Difference {
                part,
                workers: Some(workers),
            }));
        }
    }
    Ok(None)
}
