//! The whole reading of texts of about 1,048,576 bytes, from their bytes to their trees: many small
//! functions, one long list, deep displays, nothing but signs, one condition of many branches, many
//! names that are loaded, names inside of 99 comprehensions, and many calls with keywords.
//!
//! The clock begins with the bytes and ends when the tree is there: making the text and giving the
//! tree back aren't counted. Beside the time stands the peak of memory, which is what Linux says
//! that the program had at most while it read the text, less what it had before: the tree, what is
//! held until it is there, and what the allocator keeps, without the text. It is that of one text
//! where that is read in a program of its own; after others it comes out too low where an earlier
//! text's memory is used again.

use anyhow::Result;
use std::alloc::Global;
use std::fs;
use std::rt::{Clock, Files};
use std::time::Instant;
use syntax::{FileKind, ParseStop, parse};

/// The length that each text comes near to, which is the longest that a workspace may hold.
const LENGTH: usize = 1_048_576;

/// How often each text is read; the best time counts.
const ROUNDS: usize = 3;

/// How many bytes a piece has at most, with its number.
const LONGEST_PIECE: usize = 256;

/// Functions, each with a name of its own.
fn functions(alloc: Global) -> Result<String> {
    let mut text = String::new(alloc);
    for i in 0..LENGTH {
        if text.len() > LENGTH - LONGEST_PIECE {
            break;
        }
        write!(
            text,
            "def f{i}(a, b = {i}):\n    c = [a, b]\n    for x in c:\n        if x != b and len(c) > {i}:\n            return [y for y in c if y]\n    return {{\"k\": c}}\n\n"
        )?;
    }
    Ok(text)
}

/// One list of many sums.
fn long_list(alloc: Global) -> Result<String> {
    let mut text = String::new(alloc);
    text.push_str("x = [\n")?;
    for i in 0..LENGTH {
        if text.len() > LENGTH - LONGEST_PIECE {
            break;
        }
        write!(text, "    len(\"s{i}\") + {i} * 2,\n")?;
    }
    text.push_str("]\n")?;
    Ok(text)
}

/// Lists in lists, 60 deep, each with a name of its own.
fn deep_lists(alloc: Global) -> Result<String> {
    let mut text = String::new(alloc);
    for i in 0..LENGTH {
        if text.len() > LENGTH - LONGEST_PIECE {
            break;
        }
        write!(text, "x{i} = ")?;
        for _ in 0..60 {
            text.push('[')?;
        }
        for _ in 0..60 {
            text.push(']')?;
        }
        text.push('\n')?;
    }
    Ok(text)
}

/// Nothing but signs, which is one expression that is too deep.
fn signs(alloc: Global) -> Result<String> {
    let mut text = String::new(alloc);
    for _ in 0..LENGTH {
        text.push('-')?;
    }
    Ok(text)
}

/// One condition, with as many branches as fit.
fn branches(alloc: Global) -> Result<String> {
    let mut text = String::new(alloc);
    text.push_str("def f(x):\n if x:0\n")?;
    for _ in 0..LENGTH {
        if text.len() > LENGTH - LONGEST_PIECE {
            break;
        }
        text.push_str(" elif 1:0\n")?;
    }
    Ok(text)
}

/// One `load` of many names.
fn loaded_names(alloc: Global) -> Result<String> {
    let mut text = String::new(alloc);
    text.push_str("load(\":a.bzl\"")?;
    for i in 0..LENGTH {
        if text.len() > LENGTH - LONGEST_PIECE {
            break;
        }
        write!(text, ", \"x{i}\"")?;
    }
    text.push_str(")\n")?;
    Ok(text)
}

/// Names that each file finds bound, inside of 99 comprehensions.
fn names_inside(alloc: Global) -> Result<String> {
    let mut text = String::new(alloc);
    text.push_str("x = ")?;
    for _ in 0..99 {
        text.push('[')?;
    }
    text.push('[')?;
    for _ in 0..LENGTH {
        if text.len() > LENGTH - 99 * 24 {
            break;
        }
        text.push_str("len, ")?;
    }
    text.push(']')?;
    for i in 0..99 {
        write!(text, " for a{i} in []]")?;
    }
    Ok(text)
}

/// Calls with keywords, as in a `BUILD` file.
fn calls(alloc: Global) -> Result<String> {
    let mut text = String::new(alloc);
    for i in 0..10_000 {
        if text.len() > LENGTH - LONGEST_PIECE {
            break;
        }
        write!(
            text,
            "len(name = \"n{i}\", deps = [\":n{i}\"], text = \"t\" + str({i}))\n"
        )?;
    }
    Ok(text)
}

/// A text that is read.
#[derive(Clone, Copy)]
enum Text {
    Functions,
    LongList,
    DeepLists,
    Signs,
    Branches,
    LoadedNames,
    NamesInside,
    Calls,
}

impl Text {
    const ALL: [Text; 8] = [
        Text::Functions,
        Text::LongList,
        Text::DeepLists,
        Text::Signs,
        Text::Branches,
        Text::LoadedNames,
        Text::NamesInside,
        Text::Calls,
    ];

    fn name(self) -> &'static str {
        match self {
            Text::Functions => "functions",
            Text::LongList => "long list",
            Text::DeepLists => "deep lists",
            Text::Signs => "signs",
            Text::Branches => "branches",
            Text::LoadedNames => "loaded names",
            Text::NamesInside => "names inside",
            Text::Calls => "calls",
        }
    }

    fn kind(self) -> FileKind {
        match self {
            Text::Calls => FileKind::Build,
            _ => FileKind::Module,
        }
    }

    fn make(self, alloc: Global) -> Result<String> {
        match self {
            Text::Functions => functions(alloc),
            Text::LongList => long_list(alloc),
            Text::DeepLists => deep_lists(alloc),
            Text::Signs => signs(alloc),
            Text::Branches => branches(alloc),
            Text::LoadedNames => loaded_names(alloc),
            Text::NamesInside => names_inside(alloc),
            Text::Calls => calls(alloc),
        }
    }
}

fn verdict(alloc: Global, text: &str, kind: FileKind) -> &'static str {
    match parse(alloc, text, kind) {
        Ok(_) => "a tree",
        Err(ParseStop::Fault(_)) => "a fault",
        Err(ParseStop::NoMemory) => "no memory",
    }
}

/// The least time of some rounds, in nanoseconds. What is read is given back behind the clock.
fn least_time(rt: &impl Clock, alloc: Global, text: &str, kind: FileKind) -> Result<u128> {
    let mut least = u128::MAX;
    for _ in 0..ROUNDS {
        let start = Instant::now(rt)?;
        let _read = parse(alloc, text, kind);
        least = least.min(start.elapsed(rt)?.as_nanos());
    }
    Ok(least)
}

/// What Linux says of the program's memory under a name, in bytes; 0 where it says nothing.
fn memory<R: Files + AllocGlobal>(rt: &R, name: &str) -> Result<u128> {
    let status = fs::read_to_string(rt, "/proc/self/status")?;
    for line in status.lines() {
        if let Some(size) = line.strip_prefix(name) {
            let words = size.trim().strip_suffix(" kB").unwrap_or("0");
            return Ok(words.parse::<u64>().unwrap_or(0) as u128 * 1024);
        }
    }
    Ok(0)
}

/// The peak of memory while a text is read, beyond what there was before, in bytes.
fn peak<R: Files + AllocGlobal>(rt: &R, text: &str, kind: FileKind) -> Result<u128> {
    fs::write(rt, "/proc/self/clear_refs", "5")?;
    let before = memory(rt, "VmRSS:")?;
    let _read = parse(rt.alloc(), text, kind);
    Ok(memory(rt, "VmHWM:")?.saturating_sub(before))
}

/// Prints what is found of a text, how long it takes, and the peak of memory.
fn report<R: Print + Clock + Files + AllocGlobal>(rt: &R, which: Text) -> Result<()> {
    let alloc = rt.alloc();
    let text = which.make(alloc)?;
    let (name, text, kind) = (which.name(), text.as_str(), which.kind());
    let bytes = text.len() as u128;
    if bytes == 0 {
        return Ok(());
    }
    let peak = peak(rt, text, kind)? / bytes;
    let tenths = least_time(rt, alloc, text, kind)?.saturating_mul(10) / bytes;
    println!(rt;
        "{name}: {}, {}.{} ns a byte, {peak} bytes a byte at most",
        verdict(alloc, text, kind),
        tenths / 10,
        tenths % 10
    )?;
    Ok(())
}

/// Prints the times of the text of this name, or of all where there is none.
pub fn time_texts<R: Print + Clock + Files + AllocGlobal>(
    rt: &R,
    name: Option<&str>,
) -> Result<()> {
    for which in Text::ALL {
        if name.is_none_or(|name| name == which.name()) {
            report(rt, which)?;
        }
    }
    Ok(())
}
