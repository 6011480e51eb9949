//! Evaluates modules that load nothing.
//!
//! Standard input is a JSON array of pairs of strings, a path and a text, as `bzlan` reads it. Each
//! text is evaluated as a module that stands alone, with at most 1,000,000 ticks. A line tells
//! `PATH NAME = TEXT` for each of its globals whose name is among the words on the command line, in
//! the order in which they are bound; or its fault, as `PATH:LINE syntax KIND` or
//! `PATH:LINE evaluation KIND`. With the word `--ticks` another line tells `PATH ticks NUMBER`. The
//! status is 0 where no module has a fault, and 1 where one has, or where the input isn't of this
//! form, which an error line tells.
#![tactic(auto)]

mod modules_alone;

use anyhow::{Result, bail};
use modules_alone::{Evaluated, evaluate};
use operations::DefaultInfo;
use serde_json::Value;
use std::alloc::Global;
use std::io::Write;
use std::process::ExitCode;
use std::{env, io};

/// Prints the lines of one module, and says whether it has a fault.
fn check<W: Write>(
    alloc: Global,
    out: &mut W,
    default_info: &DefaultInfo,
    words: &[String],
    (path, text): (&str, &str),
) -> Result<bool> {
    match evaluate(alloc, default_info, path, text)? {
        Evaluated::Globals(globals, ticks) => {
            for (name, value) in &globals {
                if words.iter().any(|word| word.as_str() == name.as_str()) {
                    writeln!(out, "{path} {} = {}", name.as_str(), value.as_str())?;
                }
            }
            if words.iter().any(|word| word.as_str() == "--ticks") {
                writeln!(out, "{path} ticks {ticks}")?;
            }
            Ok(false)
        }
        Evaluated::Fault(fault) => {
            writeln!(out, "{path}:{}", fault.as_str())?;
            Ok(true)
        }
    }
}

/// The two strings that an item of the input is.
fn pair_of(item: &Value) -> Option<(&str, &str)> {
    match item.as_array()?.as_slice() {
        [path, text] => Some((path.as_str()?, text.as_str()?)),
        [] => None,
        [_] => None,
        [_, _, _, ..] => None,
    }
}

/// Evaluates every module of the input, and says whether one has a fault.
fn check_all<W: Write>(
    alloc: Global,
    out: &mut W,
    words: &[String],
    input: &Value,
) -> Result<bool> {
    let Some(files) = input.as_array() else {
        bail!("the input is no array");
    };
    let default_info = DefaultInfo::new(alloc)?;
    let mut found = false;
    for file in files {
        let Some(pair) = pair_of(file) else {
            bail!("an item isn't a pair of strings");
        };
        let faulty = check(alloc, out, &default_info, words, pair)?;
        found = found || faulty;
    }
    Ok(found)
}

fn main(rt: HostRuntime) -> Result<ExitCode> {
    let alloc = rt.alloc();
    let mut words = Vec::new(alloc);
    for word in env::args(&rt)? {
        words.push(word)?;
    }
    let input = io::read_to_string(alloc, rt.reader())?;
    let input = Value::from_slice(alloc, input.as_bytes())?;
    let mut out = io::writer(&rt);
    let found = check_all(alloc, &mut out, &words, &input)?;
    out.flush()?;
    Ok(ExitCode::from(if found { 1 } else { 0 }))
}
