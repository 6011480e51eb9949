//! Checks the syntax of `BUILD` files and modules.
//!
//! Standard input is a JSON array of pairs of strings, a path and a text, as `bzlan` reads it. A
//! path whose last segment is `BUILD` is a `BUILD` file's, one that ends in `.bzl` a module's;
//! other files aren't looked at. For each file, in the order of the input, a line tells `PATH ok`
//! or `PATH:LINE syntax KIND`. The status is 0 where every file has a tree, and 1 where one has a
//! fault, or where the input isn't of this form, which an error line tells.
//!
//! With `time` nothing is read, and it prints how long the reading of long texts takes: down to
//! their logical lines, and to their trees with the peak of memory. With `time lines` the former
//! alone, with `time NAME` that of one text.
#![tactic(auto)]

mod lines;
mod texts;

use anyhow::{Result, bail};
use lines::time_lines;
use serde_json::Value;
use std::alloc::Global;
use std::io::Write;
use std::process::ExitCode;
use std::rt::{Clock, Files};
use std::{env, io};
use syntax::{FileKind, ParseStop, SyntaxFault, parse};
use texts::time_texts;

/// What a file is, by its path; None where its text isn't looked at.
fn kind_of(path: &str) -> Option<FileKind> {
    if path == "BUILD" || path.ends_with("/BUILD") {
        Some(FileKind::Build)
    } else if path.ends_with(".bzl") {
        Some(FileKind::Module)
    } else {
        None
    }
}

/// The first fault of a text, or None where it has a tree.
fn fault_of(alloc: Global, text: &str, kind: FileKind) -> Result<Option<SyntaxFault>> {
    match parse(alloc, text, kind) {
        Ok(_) => Ok(None),
        Err(ParseStop::Fault(fault)) => Ok(Some(fault)),
        Err(ParseStop::NoMemory) => bail!("no memory"),
    }
}

/// Prints the line of one file, and says whether it has a fault.
fn check<W: Write>(alloc: Global, out: &mut W, path: &str, text: &str) -> Result<bool> {
    let Some(kind) = kind_of(path) else {
        return Ok(false);
    };
    match fault_of(alloc, text, kind)? {
        None => {
            writeln!(out, "{path} ok")?;
            Ok(false)
        }
        Some(fault) => {
            writeln!(out, "{path}:{} syntax {}", fault.line, fault.kind)?;
            Ok(true)
        }
    }
}

/// The two strings that an item of the input is.
fn pair_of(item: &Value) -> Option<(&str, &str)> {
    match item.as_array()?.as_slice() {
        [path, text] => Some((path.as_str()?, text.as_str()?)),
        [] => None,
        [_] => None,
        [_, _, _, ..] => None,
    }
}

/// Checks every file of the input, and says whether one has a fault.
fn check_all<W: Write>(alloc: Global, out: &mut W, input: &Value) -> Result<bool> {
    let Some(files) = input.as_array() else {
        bail!("the input is no array");
    };
    let mut found = false;
    for file in files {
        let Some((path, text)) = pair_of(file) else {
            bail!("an item isn't a pair of strings");
        };
        let faulty = check(alloc, out, path, text)?;
        found = found || faulty;
    }
    Ok(found)
}

/// Prints the times of what has this name, or of all where there is none.
fn time<R: Print + Clock + Files + AllocGlobal>(rt: &R, name: Option<&str>) -> Result<()> {
    if name.is_none_or(|name| name == "lines") {
        time_lines(rt, rt.alloc())?;
    }
    time_texts(rt, name)
}

fn main(rt: HostRuntime) -> Result<ExitCode> {
    let alloc = rt.alloc();
    let words: Vec<String> = env::args(&rt)?.collect(alloc)?;
    if words.len() > 1 {
        time(&rt, words.get(2).map(|word| word.as_str()))?;
        return Ok(ExitCode::from(0));
    }
    let input = io::read_to_string(alloc, rt.reader())?;
    let input = Value::from_slice(alloc, input.as_bytes())?;
    let mut out = io::writer(&rt);
    let found = check_all(alloc, &mut out, &input)?;
    out.flush()?;
    Ok(ExitCode::from(if found { 1 } else { 0 }))
}
