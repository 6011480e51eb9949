//! Texts and their verdicts, as tables: the fault that each text has, or none of the three passes.
use lexer::{
    FaultKind, Kind, Lines, Mark, ParseStop, Span, SyntaxFault, Token, Word, logical_lines,
};
use std::alloc::{AllocError, Global};
use std::process::Abort;

/// Whether a text has this fault, or none where none is wanted.
fn has(alloc: Global, text: &str, want: Option<SyntaxFault>) -> bool {
    match logical_lines(alloc, text) {
        Ok(_) => want.is_none(),
        Err(ParseStop::Fault(fault)) => want == Some(fault),
        Err(ParseStop::NoMemory) => false,
    }
}

fn expect_faults(rt: &impl Abort, alloc: Global, kind: FaultKind, rows: &[(&str, usize)]) {
    for (text, line) in rows {
        let fault = SyntaxFault { line: *line, kind };
        assert!(rt; has(alloc, text, Some(fault)), "{text:?}");
    }
}

fn expect_none(rt: &impl Abort, alloc: Global, texts: &[&str]) {
    for text in texts {
        assert!(rt; has(alloc, text, None), "{text:?}");
    }
}

#[test]
fn bytes_that_are_no_characters(rt: HostRuntime) {
    expect_faults(
        &rt,
        rt.alloc(),
        FaultKind::Character,
        &[
            ("\t", 1),
            ("x = 1\r\n", 1),
            ("x = 1\n\n\ty = 2\n", 3),
            ("# caf\u{e9}", 1),
            ("\u{7f}", 1),
            ("\u{0}", 1),
            ("x = \"\u{1f}\"\n", 1),
            // A later pass has faults before it.
            ("x = 01\n\n\n\n\n\n\n\n\ty\n", 9),
            ("(\n\n)))\n\t", 4),
        ],
    );
}

#[test]
fn places_where_no_token_fits(rt: HostRuntime) {
    expect_faults(
        &rt,
        rt.alloc(),
        FaultKind::Token,
        &[
            ("x = 'a\n", 1),
            ("x = \"a", 1),
            ("x = 'a\"", 1),
            ("x = 9223372036854775808", 1),
            ("x = 99999999999999999999999999999999999999999", 1),
            ("x = 01", 1),
            ("x = 0x1", 1),
            ("x = 1_000", 1),
            ("x = 1if", 1),
            ("x = 0_", 1),
            ("x = 1\ny = 1;\n", 2),
            ("x = 1 \\\n + 2", 1),
            ("x = !y", 1),
            ("x = 4 / 2", 1),
            ("x = a & b", 1),
            ("x = a @ b", 1),
            ("x = '\\x'", 1),
            ("x = '\\", 1),
            ("x = '\\\n'", 1),
            ("x = '''a\n'''", 1),
            // The first place decides, and this pass comes before brackets and columns.
            ("x = 1\n$\n?\n", 2),
            (")\n  x\n$", 3),
        ],
    );
}

#[test]
fn brackets_and_columns_that_are_wrong(rt: HostRuntime) {
    expect_faults(
        &rt,
        rt.alloc(),
        FaultKind::Indent,
        &[
            ("x = (1,\n", 1),
            ("x = 1\ny = (\n[\n", 3),
            ("x = {\n{1:", 2),
            (")", 1),
            ("x = (1]\n", 1),
            ("x = (\n[\n)\n", 3),
            ("x = 1\n}\n", 2),
            (" x = 1\n", 1),
            ("\n# c\n  x = 1\n", 3),
            ("x = 1\n  y = 2\n", 2),
            ("def f():\n\n# c\nx = 1\n", 1),
            ("def f():\n", 1),
            ("def f():", 1),
            ("x = 1\ndef f():\n# end", 2),
            ("def f():\n  x\n y\n", 3),
            ("def f():\n    if x:\n        y\n      z\n", 4),
            ("def f():\n  x\n    y\n", 3),
            // A line without a `:` at its end opens no block, also where one stands before.
            ("x: y\n  z\n", 2),
            // A column is tested at a line's first token, before that token as a bracket.
            ("def f():\n)", 1),
            ("def f():\n  )", 2),
        ],
    );
}

#[test]
fn texts_without_such_a_fault(rt: HostRuntime) {
    expect_none(
        &rt,
        rt.alloc(),
        &[
            "",
            "\n",
            "   ",
            "  # only a comment",
            "x = 1",
            "x = 9223372036854775807",
            "x = 0",
            "x = 1.x",
            "x = '''a'''",
            "x = \"a\" \"b\"",
            "x = 'a#b' # c",
            "x = '\\n\\t\\\\\\\"\\''",
            "x = \"it's\"",
            "x = (1,\n2,\n        3\n  )\ny = 2",
            "x = [\n# c\n\n]",
            "x = {'a': (1, [2])}",
            "def f():\n  x\ny",
            "def f():\n    if x:\n        y\n    z\nw",
            "def f():\n    if x:\n        y\nw",
            "def f(): pass\nx = 1",
            "def f(\n):\n  pass",
            "1 < 2 < 3",
            "class lambda",
            "a//b+=c!=d==e<=f>=g%h*i-j.k",
        ],
    );
}

/// A piece so often, another as often, and an end.
fn repeated(
    alloc: Global,
    first: &str,
    second: &str,
    count: usize,
    end: &str,
) -> Result<String, AllocError> {
    let mut text = first.repeat(alloc, count)?;
    for _ in 0..count {
        text.push_str(second)?;
    }
    text.push_str(end)?;
    Ok(text)
}

/// Whether a piece so often, another as often, and an end are a text that has this fault, or none
/// where none is wanted.
fn repeated_has(
    alloc: Global,
    (first, second): (&str, &str),
    count: usize,
    end: &str,
    want: Option<SyntaxFault>,
) -> bool {
    match repeated(alloc, first, second, count, end) {
        Ok(text) => has(alloc, text.as_str(), want),
        Err(_) => false,
    }
}

/// A fault of brackets or columns.
fn indent(line: usize) -> Option<SyntaxFault> {
    let kind = FaultKind::Indent;
    Some(SyntaxFault { line, kind })
}

#[test]
fn a_hundred_brackets_are_open_at_once(rt: HostRuntime) {
    let alloc = rt.alloc();
    assert!(rt; repeated_has(alloc, ("[", ""), 101, "", indent(1)));
    assert!(rt; repeated_has(alloc, ("(", ")"), 100, "\n", None));
    assert!(rt; repeated_has(alloc, ("()", ""), 1000, "\n", None));
    assert!(rt; repeated_has(alloc, ("(\n", ""), 101, "\n)", indent(101)));
}

#[test]
fn hostile_texts_are_refused_by_name(rt: HostRuntime) {
    let alloc = rt.alloc();
    let unclosed = SyntaxFault {
        line: 1,
        kind: FaultKind::Token,
    };
    assert!(rt; repeated_has(alloc, ("(", ""), 100_000, "", indent(1)));
    assert!(rt; repeated_has(alloc, ("'\n", ""), 50_000, "", Some(unclosed)));
    assert!(rt; repeated_has(alloc, ("if x:\n", ""), 50_000, "", indent(1)));
    assert!(rt; repeated_has(alloc, ("-", ""), 100_000, "", None));
}

/// Puts a line behind so many spaces.
fn put_line(text: &mut String, spaces: usize, line: &str) -> Result<(), AllocError> {
    for _ in 0..spaces {
        text.push(' ')?;
    }
    text.push_str(line)?;
    Ok(())
}

/// Heads of blocks, each one column deeper than the one before, and a line inside the last.
fn nested(alloc: Global, blocks: usize) -> Result<String, AllocError> {
    let mut text = String::new(alloc);
    for depth in 0..blocks {
        put_line(&mut text, depth, "if x:\n")?;
    }
    put_line(&mut text, blocks, "y\n")?;
    Ok(text)
}

/// Whether so many blocks inside of one another have this fault, or none where none is wanted.
fn nested_has(alloc: Global, blocks: usize, want: Option<SyntaxFault>) -> bool {
    match nested(alloc, blocks) {
        Ok(text) => has(alloc, text.as_str(), want),
        Err(_) => false,
    }
}

#[test]
fn thirty_two_blocks_are_open_at_once(rt: HostRuntime) {
    assert!(rt; nested_has(rt.alloc(), 32, None));
    assert!(rt; nested_has(rt.alloc(), 33, indent(34)));
}

/// Whether a text has a fault that is told so.
fn is_told(alloc: Global, text: &str, want: &str) -> Result<bool, AllocError> {
    match logical_lines(alloc, text) {
        Ok(_) => Ok(false),
        Err(stop) => Ok(format!(in alloc; "{stop}")?.as_str() == want),
    }
}

#[test]
fn faults_are_named_by_their_pass(rt: HostRuntime) {
    let alloc = rt.alloc();
    assert!(rt; is_told(alloc, "\t", "syntax character at line 1") == Ok(true));
    assert!(rt; is_told(alloc, "\n$", "syntax token at line 2") == Ok(true));
    assert!(rt; is_told(alloc, "x\n\n  y", "syntax indent at line 3") == Ok(true));
}

fn token(kind: Kind, line: usize, column: usize) -> Token {
    Token { kind, line, column }
}

/// Whether the first line is a head of `if`, and its name reads `x`.
fn has_head(read: &Lines) -> bool {
    let x = Span { start: 4, end: 5 };
    let head = [
        token(Kind::Word(Word::If), 2, 0),
        token(Kind::Name(x), 2, 3),
        token(Kind::Mark(Mark::GreaterEqual), 2, 5),
        token(Kind::Number(10), 2, 8),
        token(Kind::Mark(Mark::Colon), 2, 10),
    ];
    read.len() == 2 && read.line(0) == head.as_slice() && read.part(x) == "x"
}

/// Whether the second line gives `y` a string.
fn has_body(read: &Lines) -> bool {
    let y = Span { start: 17, end: 18 };
    let body = Span { start: 22, end: 26 };
    let line = [
        token(Kind::Name(y), 3, 4),
        token(Kind::Mark(Mark::Assign), 3, 6),
        token(Kind::Str(body), 3, 8),
    ];
    read.len() == 2 && read.line(1) == line.as_slice() && read.part(body) == "a\\'b"
}

#[test]
fn tokens_have_their_lines_and_columns(rt: HostRuntime) {
    let is_so = match logical_lines(rt.alloc(), "\nif x >= 10:\n    y = 'a\\'b'  # c") {
        Ok(read) => has_head(&read) && has_body(&read),
        Err(_) => false,
    };
    assert!(rt; is_so);
}
