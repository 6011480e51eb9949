//! Places, and kinds of faults.
ghost use Rattle.std.specs.Prelude.{◌≡◌, ◌++◌, string_bytes, OnOk};
ghost use Rattle.reporting.specs.Lines.{evaluation_text, place_text};

use leaf_texts::put_quoted;
use plain::Text;
use std::alloc::AllocError;
use std::fmt::Write;
use values::Kind;

/// Appends a line of a file, as `a/r.bzl:3`.
pub(crate) fn put_place(out: &mut String, path: &Text, line: u64) -> Result<(), AllocError>
    ensures { OnOk result
        (string_bytes out.new ≡ string_bytes out.old ++ place_text path.now line) }
{
    out.push_str(path.as_str())?;
    write!(out, ":{line}")
}

/// Appends the kind of a fault of an evaluation; that of `fail` with its text.
pub(crate) fn put_kind(out: &mut String, kind: &Kind) -> Result<(), AllocError>
    ensures { OnOk result
        (string_bytes out.new ≡ string_bytes out.old ++ evaluation_text kind.now) }
{
    match kind {
        Kind::Fail(text) => {
            out.push_str("fail ")?;
            put_quoted(out, text.as_str())
        }
        other => out.push_str(other.name()),
    }
}

/// Appends the kind of a fault of an evaluation behind a word.
pub(crate) fn put_kind_behind(out: &mut String, word: &str, kind: &Kind) -> Result<(), AllocError>
    ensures { OnOk result (string_bytes out.new
        ≡ string_bytes out.old ++ (word.now ++ evaluation_text kind.now)) }
{
    out.push_str(word)?;
    put_kind(out, kind)
}
