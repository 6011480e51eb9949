//! The reading of texts of 1,048,576 bytes down to their logical lines: one that looks like a
//! module, and the worst cases of each pass.

use anyhow::Result;
use lexer::{ParseStop, logical_lines};
use std::alloc::Global;
use std::rt::Clock;
use std::time::Instant;

/// The length of each text, which is the longest that a workspace may hold.
const LENGTH: usize = 1_048_576;

/// How often each text is read; the best time counts.
const ROUNDS: usize = 5;

const MODULE: &str = "load(\":tools.bzl\", \"tool\", other = \"name\")

# A rule that compiles one file.
def _compile(ctx):
    output = ctx.actions.declare_file(ctx.label.name + \".o\")
    arguments = [\"-c\", \"-O2\"] + [\"-I\" + f.path for f in ctx.files.headers]
    ctx.actions.run(
        outputs = [output],
        inputs = ctx.files.srcs,
        executable = ctx.attr.compiler,
        arguments = arguments,
        mnemonic = \"Compile\",
    )
    if len(arguments) > 100 and not ctx.attr.quiet:
        fail(\"too many arguments\\n\")
    return [DefaultInfo(files = depset([output]))]

compile = rule(implementation = _compile, attrs = {\"srcs\": attr.label_list(), \"count\": attr.int(default = 42)})

";

/// A text of `LENGTH` bytes at most, made of whole pieces.
fn text_of(alloc: Global, piece: &str) -> Result<String> {
    let mut text = String::new(alloc);
    if piece.is_empty() {
        return Ok(text);
    }
    for _ in 0..LENGTH / piece.len() {
        text.push_str(piece)?;
    }
    Ok(text)
}

fn verdict(alloc: Global, text: &str) -> &'static str {
    match logical_lines(alloc, text) {
        Ok(_) => "no fault",
        Err(ParseStop::Fault(_)) => "a fault",
        Err(ParseStop::NoMemory) => "no memory",
    }
}

/// The least time of some rounds, in nanoseconds.
fn least_time(rt: &impl Clock, alloc: Global, text: &str) -> Result<u128> {
    let mut least = u128::MAX;
    for _ in 0..ROUNDS {
        let start = Instant::now(rt)?;
        let _ = logical_lines(alloc, text);
        least = least.min(start.elapsed(rt)?.as_nanos());
    }
    Ok(least)
}

/// Prints what is found of a text of this piece, and how long it takes.
fn report<R: Print + Clock>(rt: &R, alloc: Global, name: &str, piece: &str) -> Result<()> {
    let text = text_of(alloc, piece)?;
    let found = verdict(alloc, text.as_str());
    let bytes = text.len() as u128;
    if bytes > 0 {
        let tenths = least_time(rt, alloc, text.as_str())?.saturating_mul(10) / bytes;
        println!(rt;
            "{name}: {found}, {}.{} ns a byte",
            tenths / 10,
            tenths % 10
        )?;
    }
    Ok(())
}

/// Prints the times of all texts.
pub fn time_lines<R: Print + Clock>(rt: &R, alloc: Global) -> Result<()> {
    report(rt, alloc, "module", MODULE)?;
    report(rt, alloc, "minus", "-")?;
    report(rt, alloc, "brackets", "(")?;
    report(rt, alloc, "closed brackets", "()")?;
    report(rt, alloc, "strings", "\"a\" ")?;
    report(rt, alloc, "names", "ab ")?;
    report(rt, alloc, "newlines", "\n")?;
    report(rt, alloc, "comment", "# one comment that never ends ")?;
    report(rt, alloc, "statements", "x\n")
}
