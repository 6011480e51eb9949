//! Lines that are expressions, by the form of their trees, and lines that are none.
use descent::line_expression;
use grammar::{Expr, Operator, Sign};
use lexer::{Lines, logical_lines};
use std::alloc::{AllocError, Global};
use std::process::Abort;

/// The form of an expression, without its parts.
fn kind(expr: &Expr) -> &'static str {
    match expr {
        Expr::Name(_) => "name",
        Expr::Number(_) => "number",
        Expr::Str(_) => "string",
        Expr::Tuple(_) => "tuple",
        Expr::ListOf(_) => "list",
        Expr::DictOf(_) => "dict",
        Expr::Choice(_, _, _) => "choice",
        Expr::Binary(operator, _, _) => sign_of(*operator),
        Expr::Unary(Sign::Not, _) => "not",
        Expr::Unary(Sign::Minus, _) => "minus",
        Expr::Attribute(_, _) => "attribute",
        Expr::Index(_, _) => "index",
        Expr::Call(_, _, _) => "call",
        Expr::ListEach(_, _) => "list each",
        Expr::DictEach(_, _, _) => "dict each",
    }
}

fn sign_of(operator: Operator) -> &'static str {
    match operator {
        Operator::Or => "or",
        Operator::And => "and",
        Operator::Equal => "==",
        Operator::NotEqual => "!=",
        Operator::Less => "<",
        Operator::Greater => ">",
        Operator::LessEqual => "<=",
        Operator::GreaterEqual => ">=",
        Operator::In => "in",
        Operator::NotIn => "not in",
        Operator::Add => "+",
        Operator::Subtract => "-",
        Operator::Multiply => "*",
        Operator::FloorDivide => "//",
        Operator::Remainder => "%",
    }
}

/// Writes the form of an expression, with the forms of its parts, or how many there are.
fn put_shape(out: &mut String, expr: &Expr) -> Result<(), AllocError> {
    let of = kind(expr);
    match expr {
        Expr::Name(name) => write!(out, "{of} {}", name.as_str()),
        Expr::Str(text) => write!(out, "{of} {}", text.as_str()),
        Expr::Number(value) => write!(out, "{of} {value}"),
        Expr::Tuple(items) | Expr::ListOf(items) => write!(out, "{of} {}", items.len()),
        Expr::DictOf(entries) => write!(out, "{of} {}", entries.len()),
        Expr::Choice(a, c, b) => write!(out, "{of}: {}, {}, {}", kind(a), kind(c), kind(b)),
        Expr::Binary(_, a, b) | Expr::Index(a, b) => write!(out, "{of}: {}, {}", kind(a), kind(b)),
        Expr::Unary(_, a) | Expr::Attribute(a, _) => write!(out, "{of}: {}", kind(a)),
        Expr::Call(f, items, named) => {
            write!(out, "{of}: {}, {}, {}", kind(f), items.len(), named.len())
        }
        Expr::ListEach(a, clauses) | Expr::DictEach(a, _, clauses) => {
            write!(out, "{of}: {}, {}", kind(a), clauses.len())
        }
    }
}

/// Whether an expression has this form.
fn has_shape(alloc: Global, expr: &Expr, want: &str) -> bool {
    let mut found = String::new(alloc);
    put_shape(&mut found, expr).is_ok() && found.as_str() == want
}

/// Whether the first of the lines is an expression of this form, or none where `none` is wanted.
fn is_first(alloc: Global, lines: &Lines, want: &str) -> bool {
    if lines.len() == 0 {
        return false;
    }
    match line_expression(alloc, lines, 0) {
        Ok(Some(expr)) => has_shape(alloc, &expr, want),
        Ok(None) => want == "none",
        Err(_) => false,
    }
}

/// Whether the first line of a text is an expression of this form, or none where `none` is wanted.
fn is_shown(alloc: Global, text: &str, want: &str) -> bool {
    match logical_lines(alloc, text) {
        Ok(lines) => is_first(alloc, &lines, want),
        Err(_) => false,
    }
}

fn expect_shown(rt: &impl Abort, alloc: Global, rows: &[(&str, &str)]) {
    for (text, want) in rows {
        assert!(rt; is_shown(alloc, text, want), "{text}");
    }
}

fn expect_none(rt: &impl Abort, alloc: Global, texts: &[&str]) {
    for text in texts {
        assert!(rt; is_shown(alloc, text, "none"), "{text}");
    }
}

#[test]
fn expressions_have_their_forms(rt: HostRuntime) {
    expect_shown(
        &rt,
        rt.alloc(),
        &[
            ("None", "name None"),
            ("17", "number 17"),
            ("'a\\n'", "string a\n"),
            ("((x))", "name x"),
            ("()", "tuple 0"),
            ("(1,)", "tuple 1"),
            ("(1, 2,)", "tuple 2"),
            ("[]", "list 0"),
            ("[1, 2, 3,]", "list 3"),
            ("{}", "dict 0"),
            ("{1: 2, 'a': 3,}", "dict 2"),
            ("a or b and c", "or: name, and"),
            ("a and b or c", "or: and, name"),
            ("not a == b", "not: =="),
            ("a - b - c", "-: -, name"),
            ("a - (b - c)", "-: name, -"),
            ("a + b * c", "+: name, *"),
            ("a * b // c % d", "%: //, name"),
            ("-a * b", "*: minus, name"),
            ("- -a.b", "minus: minus"),
            ("a not in b + c", "not in: name, +"),
            ("a if b else c if d else e", "choice: name, name, choice"),
            ("a.b[c](d)", "call: index, 1, 0"),
            ("f(a, b, x = 1, y = 2,)", "call: name, 2, 2"),
            ("[x for x in y]", "list each: name, 1"),
            (
                "{x: y for x, y in a if b for z in c if d if e}",
                "dict each: name, 5",
            ),
            ("(a if b else c) if d else e", "choice: choice, name, name"),
        ],
    );
}

#[test]
fn what_is_no_expression_has_no_tree(rt: HostRuntime) {
    expect_none(
        &rt,
        rt.alloc(),
        &[
            "1 < 2 < 3",
            "a in b in c",
            "len(a = 1, 2)",
            "(,)",
            "[,]",
            "{,}",
            "f(,)",
            "1, 2",
            "x = 1",
            "a b",
            "a +",
            "a not b",
            "a if b",
            "a.1",
            "a[]",
            "a[1, 2]",
            "{1}",
            "{1: 2, 3}",
            "[1: 2]",
            "(x for x in y)",
            "[x if a]",
            "[x for 1 in y]",
            "[x for x, in y]",
            "[x for x in a if b else c]",
            "[1, 2 for x in y]",
            "pass",
            "lambda",
            "'a' 'b'",
            "- not a",
            "1 == not a",
        ],
    );
}

/// A text of a part so often, and an end.
fn repeated(alloc: Global, part: &str, times: usize, end: &str) -> Result<String, AllocError> {
    let mut text = part.repeat(alloc, times)?;
    text.push_str(end)?;
    Ok(text)
}

/// Whether a part so often, and an end, are an expression of this form, or none where `none` is
/// wanted.
fn repeats(alloc: Global, part: &str, times: usize, end: &str, want: &str) -> bool {
    match repeated(alloc, part, times, end) {
        Ok(text) => is_shown(alloc, text.as_str(), want),
        Err(_) => false,
    }
}

/// Whether 199 parts and an end are an expression of this form, and 200 or many are none.
fn are_most(alloc: Global, part: &str, end: &str, want: &str) -> bool {
    repeats(alloc, part, 199, end, want)
        && repeats(alloc, part, 200, end, "none")
        && repeats(alloc, part, 20_000, end, "none")
}

#[test]
fn expressions_are_at_most_200_deep(rt: HostRuntime) {
    let alloc = rt.alloc();
    assert!(rt; are_most(alloc, "-", "1", "minus: minus"));
    assert!(rt; are_most(alloc, "not ", "x", "not: not"));
    assert!(rt; are_most(alloc, "1 + ", "1", "+: +, number"));
    let choice = "choice: name, name, choice";
    assert!(rt; are_most(alloc, "a if b else ", "c", choice));
    assert!(rt; are_most(alloc, "f.", "f", "attribute: attribute"));
}
