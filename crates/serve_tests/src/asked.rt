//! The files of the tests, and requests over memory.
use fakes::tapes::{Failing, Page, Tape};
use pool::NoGate;
use serve::{Leftovers, ServeStop, closing, serve};
use std::alloc::{AllocError, Global};
use std::sync::Wait;
use std::thread::Threads;

/// A module, as JSON spells it. Its rule writes the name of the target to a file, and fails where
/// no file is named.
const MODULE: &str =
    "def _w(ctx):\\n    if ctx.attr.out == '':\\n        fail('no')\\n    o = ctx.actions.declare_file(ctx.attr.out)\\n    ctx.actions.write(o, ctx.label.name)\\n    return [DefaultInfo(files = depset([o]))]\\nw = rule(implementation = _w, attrs = {'out': attr.string(), 'deps': attr.label_list()})\\n";

/// One target, as JSON spells it.
pub(crate) const ONE: &str = "load(':w.bzl', 'w')\\nw(name = 'x', out = 'o')\\n";

/// And the report on it.
pub(crate) const ITS_REPORT: &str = "target //a:x ok
  provider DefaultInfo files=depset(default, [<file a/o>])
  action FileWrite outputs [\"a/o\"] inputs [] words [] content \"x\"
";

/// An input: the module, and a `BUILD` file in the same package, as JSON spells it.
pub(crate) fn input(alloc: Global, build: &str) -> Result<String, AllocError> {
    format!(in alloc; "[[\"a/w.bzl\", \"{MODULE}\"], [\"a/BUILD\", \"{build}\"]]")
}

/// The words of a text, which a space parts.
pub(crate) fn split(alloc: Global, text: &str) -> Result<Vec<&str>, AllocError> {
    let mut words = Vec::new(alloc);
    for word in text.split(' ') {
        words.push(word)?;
    }
    Ok(words)
}

/// How a request ends whose words a space parts, for the module and a `BUILD` file, which JSON
/// spells.
pub(crate) fn ends<R: Threads + Wait + Sync + AllocGlobal>(
    rt: &R,
    words: &str,
    build: &str,
    page: &mut Page,
) -> Result<Result<bool, ServeStop>, AllocError> {
    let alloc = rt.alloc();
    let words = split(alloc, words)?;
    let input = input(alloc, build)?;
    let mut tape = Tape::new(input.as_bytes(), 4096, None);
    Ok(serve(
        rt,
        alloc,
        &mut tape,
        page,
        words.as_slice(),
        &NoGate,
        Leftovers::Leave,
    ))
}

/// What is to come of a request: the status, the line on standard error, and the report.
#[derive(Drop)]
pub(crate) struct Wanted {
    pub(crate) status: u8,
    pub(crate) line: &'static str,
    pub(crate) report: &'static str,
}

/// A report on which all is well.
pub(crate) fn well(report: &'static str) -> Wanted {
    Wanted {
        status: 0,
        line: "",
        report,
    }
}

/// A report that has a load fault, a failed target or a conflict.
pub(crate) fn loud(report: &'static str) -> Wanted {
    Wanted {
        status: 1,
        line: "",
        report,
    }
}

/// A request that is refused.
pub(crate) fn refused(line: &'static str) -> Wanted {
    Wanted {
        status: 2,
        line,
        report: "",
    }
}

/// Whether that comes of words, which a space parts, and an input, and the input was read to its
/// end; where words are refused, not at all.
pub(crate) fn is_served<R: Threads + Wait + Sync + AllocGlobal>(
    rt: &R,
    words: &str,
    input: &str,
    want: &Wanted,
) -> Result<bool, AllocError> {
    let alloc = rt.alloc();
    let words = split(alloc, words)?;
    let mut tape = Tape::new(input.as_bytes(), 4096, None);
    let mut page = Page::new(alloc, 4096, None, Failing::Interrupted);
    let served = serve(
        rt,
        alloc,
        &mut tape,
        &mut page,
        words.as_slice(),
        &NoGate,
        Leftovers::Free,
    );
    let (status, line) = closing(&served);
    let is_read = if line == "bzlan: words refused" {
        tape.calls == 0
    } else {
        tape.left.is_empty()
    };
    let is_told = page.bytes.as_slice() == want.report.as_bytes();
    Ok(is_read && is_told && status == want.status && line == want.line)
}
