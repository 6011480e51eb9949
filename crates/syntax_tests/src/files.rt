//! Files and their verdicts, as tables: the fault that each text has by one of the five passes, or
//! a tree.
use std::alloc::{AllocError, Global};
use std::process::Abort;
use syntax::{FaultKind, FileKind, ParseStop, SyntaxFault, parse};

/// Whether a text has this fault, or a tree where no fault is wanted.
fn has(alloc: Global, text: &str, kind: FileKind, want: Option<SyntaxFault>) -> bool {
    match parse(alloc, text, kind) {
        Ok(_) => want.is_none(),
        Err(ParseStop::Fault(fault)) => want == Some(fault),
        Err(ParseStop::NoMemory) => false,
    }
}

fn expect_faults(rt: &impl Abort, alloc: Global, kind: FaultKind, rows: &[(&str, usize)]) {
    for (text, line) in rows {
        let fault = SyntaxFault { line: *line, kind };
        assert!(rt; has(alloc, text, FileKind::Module, Some(fault)), "{text:?}");
    }
}

fn expect_trees(rt: &impl Abort, alloc: Global, kind: FileKind, texts: &[&str]) {
    for text in texts {
        assert!(rt; has(alloc, text, kind, None), "{text:?}");
    }
}

/// Whether the top level of a module has so many statements.
fn has_steps(alloc: Global, text: &str, count: usize) -> bool {
    match parse(alloc, text, FileKind::Module) {
        Ok(parsed) => parsed.steps.len() == count,
        Err(_) => false,
    }
}

#[test]
fn files_with_a_tree(rt: HostRuntime) {
    expect_trees(
        &rt,
        rt.alloc(),
        FileKind::Module,
        &[
            "",
            "def f():\n  return y\ny = 1\n",
            "x = [1]\ny = [x for x in x]",
            "\"doc\"\nload(\":a.bzl\", \"a\")\n\"more\"\nload(\":b.bzl\", c = \"b\",)\nx = a(c)\n",
            "def f(a, b = 1, c = 2):\n  x, x = a, b\n  for i, j in c:\n    if x: continue\n    elif a: break\n    else: return x, j\n  return i\n",
            "def f(): pass\n",
            "def f():\n  x = 1\n  x += 2\n  f(x)[0] += 1\n  f.g(a = 1, b = 2)[x] = 3\n",
            "x = {k: v for k, v in [] if k for w in v}",
            "def f(x):\n  return [x for x in [y for y in x]]\n",
            "x = not 1 < 2",
            "x = (1, 2,)\ny = ()\nz = (1,)\n",
            "def f():\n  if 1: pass\n\n  # comment\n  elif 2: pass\n  else: pass\n",
        ],
    );
    expect_trees(
        &rt,
        rt.alloc(),
        FileKind::Build,
        &[
            "load(\":a.bzl\", \"a\")\na(name = \"t\")\n",
            "x = 1\ny = x\n",
        ],
    );
    let text = "x = 1\ndef f():\n  y = 1\n  return y\nz = x\n";
    assert!(&rt; has_steps(rt.alloc(), text, 3));
}

#[test]
fn lines_that_are_no_statements(rt: HostRuntime) {
    expect_faults(
        &rt,
        rt.alloc(),
        FaultKind::Statement,
        &[
            ("if True:\n  pass\n", 1),
            ("x = len(a = 1, 2)", 1),
            ("x = 1 < 2 < 3", 1),
            ("x = 1\nload(\":a.bzl\", \"a\")\n", 2),
            ("(\"doc\")\nload(\":a.bzl\", \"a\")\n", 2),
            ("load(\":a.bzl\")\n", 1),
            ("def f():\n  break\n", 2),
            (
                "def f():\n  if 1:\n    pass\n  else:\n    pass\n  elif 2:\n    pass\n",
                6,
            ),
            ("return 1", 1),
            ("def f():\n  def g(): pass\n", 2),
            ("1, 2", 1),
            ("x, = 1", 1),
            ("x = 1,", 1),
            ("(x) = 1", 1),
            ("a.b = 1", 1),
            ("x = [,]", 1),
            ("def f(,): pass", 1),
            ("def f(): if 1: pass", 1),
            ("x = '''a'''", 1),
            ("x = 1\ny = class\n", 2),
        ],
    );
    let fault = SyntaxFault {
        line: 1,
        kind: FaultKind::Statement,
    };
    assert!(&rt; has(rt.alloc(), "def f(): pass", FileKind::Build, Some(fault)));
}

#[test]
fn lines_that_break_a_rule_of_scopes(rt: HostRuntime) {
    expect_faults(
        &rt,
        rt.alloc(),
        FaultKind::Scope,
        &[
            ("x, x = 1, 2", 1),
            ("y = [x for x in x]", 1),
            ("x = 1\nx = 2\n", 2),
            ("x = 1\nx += 2\n", 2),
            ("y = x\nx += 1\n", 2),
            ("len = 1", 1),
            ("def f(len): pass", 1),
            ("def f():\n  len = 1\n", 2),
            ("x = [str for str in []]", 1),
            ("x = [y for y in []]\nz = y\n", 2),
            ("def f(a, a): pass", 1),
            ("def f(a = 1, b): pass", 1),
            ("def f(a = b, b = 1): pass", 1),
            ("def f(): return 1\nx = f(a = 1, a = 2)\n", 2),
            ("def f():\n  x = 1\ny = x\n", 3),
            ("load(\":a.bzl\", \"a\")\nload(\":b.bzl\", \"a\")\n", 2),
            ("def f():\n  return z\n", 2),
        ],
    );
}

#[test]
fn earlier_passes_decide(rt: HostRuntime) {
    expect_faults(
        &rt,
        rt.alloc(),
        FaultKind::Character,
        &[("x = 01\n\n\n\n\n\n\n\n\ty\n", 9)],
    );
    expect_faults(
        &rt,
        rt.alloc(),
        FaultKind::Token,
        &[
            ("x = 'a\n", 1),
            ("x = 9223372036854775808", 1),
            ("x = 01", 1),
            ("x = 0x1", 1),
            ("y = z\nx = 0x1", 2),
        ],
    );
    expect_faults(
        &rt,
        rt.alloc(),
        FaultKind::Indent,
        &[("x = (1,\n", 1), ("def f():\n\n# c\nx = 1\n", 1)],
    );
    expect_faults(
        &rt,
        rt.alloc(),
        FaultKind::Statement,
        &[("x = y\nbreak\n", 2)],
    );
}

/// This many signs before a number.
fn signs(alloc: Global, count: usize) -> Result<String, AllocError> {
    let signs = "-".repeat(alloc, count)?;
    format!(in alloc; "x = {signs}1")
}

/// Whether so many signs before a number have this fault, or a tree where no fault is wanted.
fn signs_have(alloc: Global, count: usize, want: Option<SyntaxFault>) -> bool {
    match signs(alloc, count) {
        Ok(text) => has(alloc, text.as_str(), FileKind::Module, want),
        Err(_) => false,
    }
}

/// Puts a line behind so many spaces.
fn put_line(text: &mut String, spaces: usize, line: &str) -> Result<(), AllocError> {
    for _ in 0..spaces {
        text.push(' ')?;
    }
    text.push_str(line)?;
    Ok(())
}

/// A function with blocks in its block, as many as there are, and in the last a head with its
/// statement on its own line.
fn nested(alloc: Global, blocks: usize) -> Result<String, AllocError> {
    let mut text = String::from_str(alloc, "def f(x):\n")?;
    for depth in 1..blocks {
        put_line(&mut text, depth, "if x:\n")?;
    }
    put_line(&mut text, blocks, "if x: x = 1\n")?;
    Ok(text)
}

/// Whether so many blocks inside of one another have this fault, or a tree where no fault is
/// wanted.
fn nested_have(alloc: Global, blocks: usize, want: Option<SyntaxFault>) -> bool {
    match nested(alloc, blocks) {
        Ok(text) => has(alloc, text.as_str(), FileKind::Module, want),
        Err(_) => false,
    }
}

#[test]
fn blocks_are_at_most_32_deep(rt: HostRuntime) {
    let fault = SyntaxFault {
        line: 34,
        kind: FaultKind::Indent,
    };
    assert!(rt; nested_have(rt.alloc(), 32, None));
    assert!(rt; nested_have(rt.alloc(), 33, Some(fault)));
}

#[test]
fn expressions_are_at_most_200_deep(rt: HostRuntime) {
    let fault = SyntaxFault {
        line: 1,
        kind: FaultKind::Statement,
    };
    assert!(rt; signs_have(rt.alloc(), 199, None));
    assert!(rt; signs_have(rt.alloc(), 200, Some(fault)));
}
