//! The words of the command line, as a table of what they ask for.
use request::{WordsStop, read_words};
use std::alloc::{AllocError, Global};

/// The number of workers, the limit of steps and how many labels the words ask for; nothing where
/// they are refused, and zeros where memory is.
fn asked_by(alloc: Global, words: &[&str]) -> Option<(usize, u64, usize)> {
    match read_words(alloc, words) {
        Ok(request) => Some((request.workers.get(), request.steps, request.labels.len())),
        Err(WordsStop::Words) => None,
        Err(WordsStop::NoMemory) => Some((0, 0, 0)),
    }
}

/// Four words, and what they ask for: the workers, the steps, how many labels. `-` says that they
/// are refused.
const ROWS: &str = "--workers 1 //a:x //b=1 1000000 2
--workers=64 --steps 1 //a:x=64 1 1
//a:x --workers +2 //a:x=2 1000000 2
--workers 007 --steps 1000000000=7 1000000000 0
--workers=2 -- //a //b=2 1000000 2
--workers 0 //a //b=-
--workers 65 //a //b=-
--workers -1 //a //b=-
//a:x //a:x //b --workers=-
//a:x //b:x --steps 5=-
--workers 1 --steps 0=-
--workers 1 --steps 1000000001=-
--workers 1 --workers 2=-
--workers 1 //a:x --help=-
--workers 1 //a:x -V=-
--workers 1 //a:x --depth=3=-
--workers 1 //a:x :x=-
--workers 1 //a:x =-";

/// The words of a row, and what they ask for.
fn parts(row: &str) -> Option<(&str, &str, &str, &str, &str)> {
    let (words, asked) = row.rsplit_once('=')?;
    let (a, rest) = words.split_once(' ')?;
    let (b, rest) = rest.split_once(' ')?;
    let (c, d) = rest.split_once(' ')?;
    Some((a, b, c, d, asked))
}

/// What the words ask for, as a row writes it.
fn written(alloc: Global, words: &[&str]) -> Result<String, AllocError> {
    match asked_by(alloc, words) {
        Some((workers, steps, labels)) => format!(in alloc; "{workers} {steps} {labels}"),
        None => format!(in alloc; "-"),
    }
}

#[test]
fn command_lines_are_read(rt: HostRuntime) -> Result<(), AllocError> {
    for row in ROWS.lines() {
        let Some((a, b, c, d, asked)) = parts(row) else {
            panic!(rt; "no row: {row}")
        };
        let found = written(rt.alloc(), &["bzlan", a, b, c, d])?;
        assert!(rt; found.as_str() == asked, "{row}");
    }
    Ok(())
}
