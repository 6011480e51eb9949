//! The deepest texts that are served: expressions 200 deep, which 100 brackets may take part in,
//! and 32 blocks.
use crate::small_stack::{Verdict, expect, nested};
use std::alloc::Global;
use std::process::Abort;
use std::test::Fail;
use std::thread::Threads;

/// A function with 32 blocks inside of one another, and in the last one an expression.
fn in_blocks(alloc: Global, expression: &str) -> Result<String, Fail> {
    let mut text = String::from_str(alloc, "def f(x):\n ")?;
    let mut indent = String::from_str(alloc, " ")?;
    for _ in 1..32 {
        text.push_str("if x:\n ")?;
        text.push_str(indent.as_str())?;
        indent.push_str(" ")?;
    }
    text.push_str("if x: ")?;
    text.push_str(expression)?;
    text.push('\n')?;
    Ok(text)
}

/// Reads a module whose expression is a middle with something before it and something behind it, so
/// many times.
fn expect_nested<R: Abort + Threads>(
    rt: &R,
    alloc: Global,
    (before, middle, behind): (&str, &str, &str),
    times: usize,
) -> Result<(), Fail> {
    expect(
        rt,
        alloc,
        nested(alloc, before, middle, behind, times)?,
        Verdict::Tree,
    )
}

#[test]
fn signs_and_operators(rt: HostRuntime) -> Result<(), Fail> {
    let alloc = rt.alloc();
    expect_nested(&rt, alloc, ("not ", "0", ""), 199)?;
    expect_nested(&rt, alloc, ("0 if 0 else ", "0", ""), 199)?;
    expect_nested(&rt, alloc, ("", "len", "()"), 199)
}

#[test]
fn brackets(rt: HostRuntime) -> Result<(), Fail> {
    let alloc = rt.alloc();
    expect_nested(&rt, alloc, ("0 if 0 else [", "0", "]"), 99)?;
    expect_nested(&rt, alloc, ("0 if 0 else {0: 0, 0: ", "0", "}"), 99)?;
    expect_nested(&rt, alloc, ("0 if 0 else len(", "0", ")"), 99)
}

#[test]
fn comprehensions(rt: HostRuntime) -> Result<(), Fail> {
    let alloc = rt.alloc();
    expect_nested(&rt, alloc, ("-[", "0", " for a in 0]"), 99)?;
    expect_nested(&rt, alloc, ("-[0 for a in ", "0", "]"), 99)?;
    expect_nested(&rt, alloc, ("-{0: 0 for a in 0 if ", "0", "}"), 99)
}

/// The deepest expression in the deepest block.
fn deepest(alloc: Global) -> Result<String, Fail> {
    let deep = nested(alloc, "0 if 0 else len(a = ", "0", ")", 99)?;
    in_blocks(alloc, deep.as_str())
}

#[test]
fn blocks(rt: HostRuntime) -> Result<(), Fail> {
    let alloc = rt.alloc();
    expect(&rt, alloc, deepest(alloc)?, Verdict::Tree)
}
