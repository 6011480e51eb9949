//! The lines of what becomes of a label.
ghost use Rattle.std.specs.Prelude.{◌≡◌, ◌++◌, codes, string_bytes, OnOk};
ghost use Rattle.std.specs.List.{flat_map};
ghost use Rattle.depsets.specs.Listed.{walked};
ghost use Rattle.workspace.specs.Labels.{label_text};
ghost use Rattle.reporting.specs.Lines.{evaluation_text, line, outcome_text, place_text};
ghost use Rattle.reporting.specs.Lines.{refused_text, spaced_label, target_fault_text};
ghost use Rattle.reporting.specs.Answers.{actions_of};
ghost use Rattle.reporting.specs.Seen.{action_lines};

use crate::action_lines::put_actions;
use crate::fault_texts::put_kind_behind;
use crate::load_lines::put_at;
use crate::provider_lines::put_providers;
use claims::Telling;
use plain::{Shared, Text};
use std::alloc::{AllocError, Global};
use targets::{Outcome, TargetFault};
use values::Kind;
use workspace::Label;

/// Appends labels, each after a space.
fn put_labels(out: &mut String, labels: &[Shared<Label>]) -> Result<(), AllocError>
    ensures { OnOk result (string_bytes out.new
        ≡ string_bytes out.old ++ flat_map spaced_label labels.now) }
{
    for label in labels {
        out.push_str(" ")?;
        out.push_str(label.get().text())?;
    }
    Ok(())
}

/// Appends what was refused, the attribute, and the label that it doesn't take.
fn put_refused(out: &mut String, what: &str, name: &Text, label: &Label) -> Result<(), AllocError>
    ensures { OnOk result (string_bytes out.new
        ≡ string_bytes out.old ++ (what.now ++ refused_text name.now label.now)) }
{
    out.push_str(what)?;
    out.push_str(name.as_str())?;
    out.push_str(" ")?;
    out.push_str(label.text())
}

/// Appends the labels of dependencies that failed.
fn put_failed(out: &mut String, labels: &[Shared<Label>]) -> Result<(), AllocError>
    ensures { OnOk result (string_bytes out.new
        ≡ string_bytes out.old ++ (codes "dependency failed" ++ flat_map spaced_label labels.now)) }
{
    out.push_str("dependency failed")?;
    put_labels(out, labels)
}

/// Appends the fault of an implementation, and where it stands.
fn put_implementation(
    out: &mut String,
    kind: &Kind,
    path: &Text,
    line: u64,
) -> Result<(), AllocError>
    ensures { OnOk result (string_bytes out.new ≡ string_bytes out.old
        ++ ((codes "implementation " ++ evaluation_text kind.now)
        ++ (codes " at " ++ place_text path.now line))) }
{
    put_kind_behind(out, "implementation ", kind)?;
    put_at(out, path, line)
}

/// Appends the path of a declared file that no action makes.
fn put_no_action(out: &mut String, path: &Text) -> Result<(), AllocError>
    ensures { OnOk result (string_bytes out.new
        ≡ string_bytes out.old ++ (codes "no action " ++ path.now)) }
{
    out.push_str("no action ")?;
    out.push_str(path.as_str())
}

/// Appends why a target has no providers.
fn put_fault(out: &mut String, fault: &TargetFault) -> Result<(), AllocError>
    ensures { OnOk result (string_bytes out.new
        ≡ string_bytes out.old ++ target_fault_text fault.now) }
{
    match fault {
        TargetFault::Cycle => out.push_str("cycle"),
        TargetFault::NoSuchTarget => out.push_str("no such target"),
        TargetFault::PackageFailed => out.push_str("package failed"),
        TargetFault::DependencyFailed(labels) => put_failed(out, labels.as_slice()),
        TargetFault::ProvidersMissing(name, label) => put_refused(
            out,
            "providers missing ",
            name,
            label.get(),
        ),
        TargetFault::FileKind(name, label) => put_refused(out, "file kind ", name, label.get()),
        TargetFault::Implementation(kind, path, line) => put_implementation(out, kind, path, *line),
        TargetFault::Returned => out.push_str("returned"),
        TargetFault::NoAction(path) => put_no_action(out, path),
    }
}

/// Appends a word, a label, and what stands behind it.
fn put_head(out: &mut String, word: &str, label: &Label, behind: &str) -> Result<(), AllocError>
    ensures { OnOk result (string_bytes out.new
        ≡ string_bytes out.old ++ (word.now ++ (label_text label.now ++ behind.now))) }
{
    out.push_str(word)?;
    out.push_str(label.text())?;
    out.push_str(behind)
}

/// Appends the line of a source file.
fn put_source(out: &mut String, label: &Label, path: &Text) -> Result<(), AllocError>
    ensures { OnOk result (string_bytes out.new ≡ string_bytes out.old
        ++ line (codes "source " ++ (label_text label.now ++ (codes " " ++ path.now)))) }
{
    put_head(out, "source ", label, " ")?;
    out.push_str(path.as_str())?;
    out.push_str("\n")
}

/// Appends the line of a target that failed.
fn put_failure(out: &mut String, label: &Label, fault: &TargetFault) -> Result<(), AllocError>
    ensures { OnOk result (string_bytes out.new ≡ string_bytes out.old
        ++ line (codes "target " ++ (label_text label.now
        ++ (codes " failed " ++ target_fault_text fault.now)))) }
{
    put_head(out, "target ", label, " failed ")?;
    put_fault(out, fault)?;
    out.push_str("\n")
}

/// Appends the line of a target that is done.
fn put_done(out: &mut String, label: &Label) -> Result<(), AllocError>
    ensures { OnOk result (string_bytes out.new ≡ string_bytes out.old
        ++ line (codes "target " ++ (label_text label.now ++ codes " ok"))) }
{
    put_head(out, "target ", label, " ok")?;
    out.push_str("\n")
}

/// Appends the lines of what becomes of a label, whose actions are told so.
///
/// # Errors
///
/// `AllocError` where memory for the text or for a listing was refused. A part of the lines may
/// have been appended then.
pub fn put_outcome(
    alloc: Global,
    out: &mut String,
    label: &Label,
    outcome: &Outcome,
    tellings: &[Telling],
) -> Result<(), AllocError>
    ensures { OnOk result (string_bytes out.new
        ≡ string_bytes out.old ++ outcome_text walked
        (action_lines walked tellings.now (actions_of outcome.now)) label.now outcome.now) }
{
    match outcome {
        Outcome::Source(file) => put_source(out, label, file.file().path.text()),
        Outcome::Failed(fault) => put_failure(out, label, fault),
        Outcome::Done(providers, actions) => {
            put_done(out, label)?;
            put_providers(alloc, out, providers.as_slice())?;
            put_actions(alloc, out, actions.as_slice(), tellings)
        }
    }
}
