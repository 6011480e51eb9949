//! What the names of files stand for, in the trees that `parse` gives.
use std::alloc::Global;
use std::process::Abort;
use syntax::{
    Binding, FileKind, Function, OwnSlots, Parsed, Predeclared, Round, Statement, Step, Term, parse,
};

/// What a term is, where it is a name.
fn name(term: &Term) -> Option<Binding> {
    match term {
        Term::Name(binding) => Some(*binding),
        _ => None,
    }
}

/// What the name stands for that is the element of a list comprehension.
fn element(term: &Term) -> Option<Binding> {
    match term {
        Term::ListEach(_, element, _) => name(element),
        _ => None,
    }
}

/// The last statement.
fn last(steps: &[Step]) -> Option<&Statement> {
    match steps {
        [.., step] => Some(&step.statement),
        [] => None,
    }
}

/// The value of the last statement of the last function, which is a `return`.
fn returned(steps: &[Step]) -> Option<&Term> {
    match last(steps)? {
        Statement::Define(function) => match last(function.steps.as_slice())? {
            Statement::Return(Some(value)) => Some(value),
            _ => None,
        },
        _ => None,
    }
}

/// Whether the last function returns a name that stands for this.
fn gives_name(parsed: &Parsed, want: Binding) -> bool {
    match returned(parsed.steps.as_slice()) {
        Some(value) => name(value) == Some(want),
        None => false,
    }
}

/// The same of a text.
fn returns(alloc: Global, text: &str, want: Binding) -> bool {
    match parse(alloc, text, FileKind::Module) {
        Ok(parsed) => gives_name(&parsed, want),
        Err(_) => false,
    }
}

fn expect_returned(rt: &impl Abort, alloc: Global, rows: &[(&str, Binding)]) {
    for (text, binding) in rows {
        assert!(rt; returns(alloc, text, *binding), "{text:?}");
    }
}

#[test]
fn names_of_functions(rt: HostRuntime) {
    expect_returned(
        &rt,
        rt.alloc(),
        &[
            ("def f(a):\n  return a\n", Binding::Slot(0)),
            ("def f(a, b = 1):\n  return b\n", Binding::Slot(1)),
            (
                "def f(a):\n  b = 1\n  a = 2\n  c = 3\n  return c\n",
                Binding::Slot(2),
            ),
            (
                "def f(a):\n  for b, c in a:\n    d = c\n  return d\n",
                Binding::Slot(3),
            ),
            ("x = 1\ny = 2\ndef f():\n  return y\n", Binding::Global(1)),
            (
                "load(\":a.bzl\", \"a\", b = \"c\")\ndef f():\n  return b\n",
                Binding::Global(1),
            ),
            ("def f():\n  return f\n", Binding::Global(0)),
            (
                "def f():\n  return len\n",
                Binding::Builtin(Predeclared::LenFunction),
            ),
            ("x = 1\ndef f(x):\n  return x\n", Binding::Slot(0)),
        ],
    );
}

/// What the element of the returned comprehension stands for, and that of the comprehension which
/// its first `for` goes through.
fn elements(term: &Term) -> Option<(Binding, Binding)> {
    match term {
        Term::ListEach(_, _, clauses) => match clauses.as_slice() {
            [Round::For(_, operand), ..] => Some((element(term)?, element(operand)?)),
            _ => None,
        },
        _ => None,
    }
}

/// Whether the elements of the returned comprehension and of the inner one stand for these.
fn gives_elements(parsed: &Parsed, outer: Binding, inner: Binding) -> bool {
    match returned(parsed.steps.as_slice()) {
        Some(value) => elements(value) == Some((outer, inner)),
        None => false,
    }
}

/// The same of a text.
fn returns_elements(alloc: Global, text: &str, outer: Binding, inner: Binding) -> bool {
    match parse(alloc, text, FileKind::Module) {
        Ok(parsed) => gives_elements(&parsed, outer, inner),
        Err(_) => false,
    }
}

#[test]
fn names_of_comprehensions(rt: HostRuntime) {
    let alloc = rt.alloc();
    let (first, second) = (Binding::Slot(0), Binding::Slot(1));
    let text = "def f(a):\n  return [a for b in [a for a in a]]\n";
    assert!(rt; returns_elements(alloc, text, first, second));
    let text = "def f(a):\n  return [b for b in [a for c in a]]\n";
    assert!(rt; returns_elements(alloc, text, second, first));
    let text = "a = 1\ndef f():\n  return [a for b in [b for b in []]]\n";
    assert!(rt; returns_elements(alloc, text, Binding::Global(0), first));
}

/// The last function of a file.
fn last_function(steps: &[Step]) -> Option<&Function> {
    match last(steps)? {
        Statement::Define(function) => Some(function),
        _ => None,
    }
}

/// The slots of the returned comprehension, and those of the one which its first `for` goes
/// through.
fn own_slots(term: &Term) -> Option<(OwnSlots, OwnSlots)> {
    match term {
        Term::ListEach(outer, _, clauses) => match clauses.as_slice() {
            [Round::For(_, Term::ListEach(inner, _, _)), ..] => Some((*outer, *inner)),
            _ => None,
        },
        _ => None,
    }
}

/// The slots from one to before another.
fn own(first: usize, end: usize) -> OwnSlots {
    OwnSlots { first, end }
}

/// Whether both comprehensions have these slots, the function three, and the top level none.
fn has_own_slots(parsed: &Parsed, want: OwnSlots) -> bool {
    let found = match returned(parsed.steps.as_slice()) {
        Some(value) => own_slots(value),
        None => None,
    };
    let slots = match last_function(parsed.steps.as_slice()) {
        Some(function) => function.slots,
        None => 0,
    };
    found == Some((want, want)) && slots == 3 && parsed.slots == 0
}

/// The same of a text.
fn are_own(alloc: Global, text: &str, want: OwnSlots) -> bool {
    match parse(alloc, text, FileKind::Module) {
        Ok(parsed) => has_own_slots(&parsed, want),
        Err(_) => false,
    }
}

#[test]
fn slots_of_comprehensions(rt: HostRuntime) {
    let text = "def f(l):\n  return [a for a in [y for y in [1] for z in [2]] if b for b in [3]]\n";
    assert!(rt; are_own(rt.alloc(), text, own(1, 3)));
    let text = "def f(l):\n  return [a for a in [y for y in [1] for y in [z for z in [2]]]]\n";
    assert!(rt; are_own(rt.alloc(), text, own(1, 2)));
}

/// How many names are loaded, how many slots the top level has, and the number of the last function
/// and of what it binds.
type Numbers = (usize, usize, usize, usize);

/// The numbers of a file.
fn numbers(parsed: &Parsed) -> Numbers {
    match last_function(parsed.steps.as_slice()) {
        Some(function) => (parsed.loaded, parsed.slots, function.number, function.binds),
        None => (parsed.loaded, parsed.slots, 0, 0),
    }
}

/// Whether the numbers of a text are these.
fn are_numbers(alloc: Global, text: &str, want: Numbers) -> bool {
    match parse(alloc, text, FileKind::Module) {
        Ok(parsed) => numbers(&parsed) == want,
        Err(_) => false,
    }
}

#[test]
fn numbers_of_a_file(rt: HostRuntime) {
    assert!(rt; are_numbers(rt.alloc(), "", (0, 0, 0, 0)));
    let text = "x = [a for a in [b for b in [] for c in []]]\n";
    assert!(rt; are_numbers(rt.alloc(), text, (0, 2, 0, 0)));
    let text =
        "load(\":a.bzl\", \"a\", b = \"c\")\nload(\":b.bzl\", \"d\")\ndef f(): pass\nx = 1\ndef g(l = [i for i in []]): pass\n";
    assert!(rt; are_numbers(rt.alloc(), text, (3, 1, 2, 5)));
}
