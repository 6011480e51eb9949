//! Dependencies with their outcomes.
ghost use Rattle.std.specs.Prelude.{◌≡◌};
ghost use Rattle.analysis.specs.Needed.{label_tree};

use plain::Shared;
use targets::Outcome;
use values::Frozen;
use workspace::Label;

/// A dependency of a target, and what became of it.
#[derive(Clone, Copy)]
pub struct Dependency<'a> {
    /// Its label.
    pub label: &'a Shared<Label>,
    /// The label as a frozen value.
    pub tree: &'a Frozen,
    /// What became of the label.
    pub outcome: &'a Outcome,
    ghost shown: { tree.now ≡ label_tree label.now },
}
