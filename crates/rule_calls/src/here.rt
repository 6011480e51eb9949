//! The package in which labels are read.
ghost use Rattle.std.specs.Prelude.{◌≡◌, ℕ, List, Some, IfSome};
ghost use Rattle.operations.specs.Items.{or_fault};
ghost use Rattle.operations.specs.States.{Gives};
ghost use Rattle.workspace.specs.Labels.{label_of, label_parts, relative_name};

use crate::by_name::PackageTargets;
use plain::Shared;
use std::alloc::Global;
use std::marker::Model;
use values::{Broken, Kind};
use workspace::{Label, LabelRefused};

/// The package in which labels are read, with the targets that it has declared. To a contract it is
/// the package.
#[derive(Drop)]
pub(crate) struct Here<'a> {
    declared: &'a PackageTargets,
}

impl<'a> Model for Here<'a> {
    ghost use Rattle.std.specs.Prelude.{ℕ, List};

    ghost Value = { List ℕ };

    ghost view = { λ h. h.declared.now.«package» };
}

impl<'a> Here<'a> {
    /// The package of these targets.
    pub(crate) fn new(declared: &'a PackageTargets) -> Here<'a>
        ensures { result ≡ declared.now.«package» }
    {
        Here { declared }
    }

    /// The label that a text is, or `type`. That of a target that the package has declared is
    /// shared, where the text is the target's name.
    pub(crate) fn label(&self, alloc: Global, text: &str) -> Result<Shared<Label>, Broken>
        ensures { Gives (or_fault Kind.Wrong (label_of text.now (Some self.now))) result }
    {
        match self.declared_label(text) {
            Some(label) => {
                let label = label.share()?;
                Ok(label)
            }
            None => read_label(alloc, self.declared.package(), text),
        }
    }

    /// The label that a text is, where it's the name of a target that the package has declared.
    fn declared_label(&self, text: &str) -> Option<&'a Shared<Label>>
        ensures { IfSome result (λ l. label_of text.now (Some self.now) ≡ Some l.now) }
    {
        let Some(name) = relative_name(text) else {
            return None;
        };
        let Some(label) = self.declared.named(name) else {
            return None;
        };
        label.get().legal();
        Some(label)
    }
}

/// The name that a text writes, where it writes no package.
fn relative_name(text: &str) -> Option<&str>
    ensures { IfSome result (λ n. (p : List ℕ) → label_parts text.now (Some p)
        ≡ Some (record { «package» = p; name = n.now })) }
{
    if text.starts_with("//") {
        return None;
    }
    Some(without_colon(text))
}

/// The name that `:n` or `n` writes.
fn without_colon(text: &str) -> &str
    ensures { result.now ≡ relative_name text.now }
{
    match text.strip_prefix(':') {
        Some(name) => name,
        None => text,
    }
}

/// The label that a text is, read in a package, or `type`.
fn read_label(alloc: Global, package: &str, text: &str) -> Result<Shared<Label>, Broken>
    ensures { Gives (or_fault Kind.Wrong (label_of text.now (Some «package».now))) result }
{
    match Label::read(alloc, text, Some(package)) {
        Ok(label) => {
            let label = Shared::new(alloc, label)?;
            Ok(label)
        }
        Err(LabelRefused::Illegal) => Err(Broken::Kind(Kind::Wrong)),
        Err(LabelRefused::NoMemory) => Err(Broken::NoMemory),
    }
}
