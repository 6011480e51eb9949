//! What labels depend on.
ghost use Rattle.std.specs.Prelude.{◌≡◌, List};
ghost use Rattle.std.specs.List.{IsDistinct};
ghost use Rattle.workspace.specs.Labels.{LabelParts, same_label};

use plain::Shared;
use workspace::Label;

/// What tells of each label which labels it depends on.
pub trait Dependencies {
    ghost needs: { Self → LabelParts → List LabelParts };

    /// The labels that a label depends on, in order and each once; none for a label that is no
    /// target.
    fn deps(&self, label: &Label) -> &[Shared<Label>]
        ensures value { result.now ≡ needs self.now label.now }
        ensures once { IsDistinct same_label result.now };
}
