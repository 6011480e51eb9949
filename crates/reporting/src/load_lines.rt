//! The lines of files that failed.
ghost use Rattle.std.specs.Prelude.{◌≡◌, ◌++◌, codes, string_bytes, OnOk};
ghost use Rattle.reporting.specs.Lines.{load_fault_line, load_kind_text, place_text};

use crate::fault_texts::{put_kind_behind, put_place};
use lexer::FaultKind;
use loading::{LoadFaultKind, Placed};
use plain::Text;
use std::alloc::AllocError;
use std::fmt::Write;
use values::Kind;

/// Appends why a file failed.
fn put_load_kind(out: &mut String, kind: &LoadFaultKind<FaultKind, Kind>) -> Result<(), AllocError>
    ensures { OnOk result (string_bytes out.new ≡ string_bytes out.old ++ load_kind_text kind.now) }
{
    match kind {
        LoadFaultKind::Syntax(kind) => write!(out, "syntax {kind}"),
        LoadFaultKind::LoadCycle => out.push_str("load cycle"),
        LoadFaultKind::MissingFile => out.push_str("missing file"),
        LoadFaultKind::LoadedModuleFailed => out.push_str("loaded module failed"),
        LoadFaultKind::PrivateName => out.push_str("private name"),
        LoadFaultKind::MissingName => out.push_str("missing name"),
        LoadFaultKind::Evaluation(kind) => put_kind_behind(out, "evaluation ", kind),
        LoadFaultKind::Unexported => out.push_str("unexported"),
    }
}

/// Appends which file failed, and why.
fn put_file(
    out: &mut String,
    path: &Text,
    kind: &LoadFaultKind<FaultKind, Kind>,
) -> Result<(), AllocError>
    ensures { OnOk result (string_bytes out.new ≡ string_bytes out.old
        ++ (codes "load " ++ (path.now ++ (codes " " ++ load_kind_text kind.now)))) }
{
    out.push_str("load ")?;
    out.push_str(path.as_str())?;
    out.push_str(" ")?;
    put_load_kind(out, kind)
}

/// Appends where a fault stands.
pub(crate) fn put_at(out: &mut String, path: &Text, line: u64) -> Result<(), AllocError>
    ensures { OnOk result (string_bytes out.new
        ≡ string_bytes out.old ++ (codes " at " ++ place_text path.now line)) }
{
    out.push_str(" at ")?;
    put_place(out, path, line)
}

/// Appends the line of a file at a path that has this fault.
///
/// # Errors
///
/// `AllocError` where memory was refused. A part of the line may have been appended then.
pub fn put_load_fault(
    out: &mut String,
    path: &Text,
    fault: &Placed<LoadFaultKind<FaultKind, Kind>>,
) -> Result<(), AllocError>
    ensures { OnOk result (string_bytes out.new
        ≡ string_bytes out.old ++ load_fault_line path.now fault.now) }
{
    put_file(out, path, &fault.kind)?;
    put_at(out, &fault.path, fault.line)?;
    out.push_str("\n")
}
