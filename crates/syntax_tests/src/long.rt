//! Texts of the greatest length: one thing as often as it fits.
use crate::small_stack::{Verdict, expect, filled, numbered};
use std::process::Abort;
use std::test::Fail;
use std::thread::Threads;
use syntax::FaultKind;

/// What a text is that nests too deep.
const REFUSED: Verdict = Verdict::Fault(FaultKind::Statement);

/// Reads a module of a front, a part as often as there is room, and an end.
fn expect_filled<R: Abort + Threads + AllocGlobal>(
    rt: &R,
    front: &str,
    part: &str,
    end: &str,
    want: Verdict,
) -> Result<(), Fail> {
    let alloc = rt.alloc();
    expect(rt, alloc, filled(alloc, front, part, end)?, want)
}

/// The same, where each part has its number between its two halves.
fn expect_numbered<R: Abort + Threads + AllocGlobal>(
    rt: &R,
    front: &str,
    halves: (&str, &str),
    end: &str,
) -> Result<(), Fail> {
    let alloc = rt.alloc();
    expect(
        rt,
        alloc,
        numbered(alloc, front, halves, end)?,
        Verdict::Tree,
    )
}

#[test]
fn branches(rt: HostRuntime) -> Result<(), Fail> {
    expect_filled(
        &rt,
        "def f(x):\n if x:0\n",
        " elif 1:0\n",
        "",
        Verdict::Tree,
    )
}

#[test]
fn statements(rt: HostRuntime) -> Result<(), Fail> {
    expect_filled(&rt, "", "0\n", "", Verdict::Tree)?;
    expect_filled(&rt, "def f():\n", " 0\n", "", Verdict::Tree)
}

#[test]
fn clauses(rt: HostRuntime) -> Result<(), Fail> {
    expect_filled(&rt, "x = [0 for a in 0", " for a in 0", "]", Verdict::Tree)?;
    expect_filled(&rt, "x = {0: 0 for a in 0", " if 0", "}", Verdict::Tree)
}

#[test]
fn items(rt: HostRuntime) -> Result<(), Fail> {
    expect_filled(&rt, "x = [", "0,", "]", Verdict::Tree)?;
    expect_filled(&rt, "x = {", "0:0,", "}", Verdict::Tree)
}

#[test]
fn arguments(rt: HostRuntime) -> Result<(), Fail> {
    expect_filled(&rt, "x = len(", "0,", ")", Verdict::Tree)?;
    expect_numbered(&rt, "x = len(", ("a", "=0,"), ")")
}

#[test]
fn targets(rt: HostRuntime) -> Result<(), Fail> {
    expect_filled(&rt, "def f():\n a", ",a", " = 0\n", Verdict::Tree)?;
    expect_numbered(&rt, "load(\":a.bzl\"", (", \"x", "\""), ")\n")?;
    expect_numbered(&rt, "def f(", ("a", ","), "): pass\n")
}

#[test]
fn operators_past_the_limit(rt: HostRuntime) -> Result<(), Fail> {
    expect_filled(&rt, "x = 0", "+0", "", REFUSED)?;
    expect_filled(&rt, "x = ", "-", "0", REFUSED)?;
    expect_filled(&rt, "x = ", "0 if 0 else ", "0", REFUSED)
}

#[test]
fn suffixes_past_the_limit(rt: HostRuntime) -> Result<(), Fail> {
    expect_filled(&rt, "x = len", ".a", "", REFUSED)?;
    expect_filled(&rt, "x = len", "()", "", REFUSED)?;
    expect_filled(&rt, "x = len", "[0]", "", REFUSED)
}
