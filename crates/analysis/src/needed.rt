//! The labels that a target depends on, as they are kept.
ghost use Rattle.std.specs.Prelude.{◌≡◌, ◌++◌, ◌∷◌, [], IfOk, OnOk, map, option_map, slice_get};
ghost use Rattle.analysis.specs.Needed.{label_tree};
ghost use Rattle.analysis.specs.Seen.{dependency_seen};

use crate::dependency::Dependency;
use plain::Shared;
use std::alloc::{AllocError, Global};
use std::marker::Model;
use targets::{Outcome, Sequence};
use values::{Frozen, Leaf};
use workspace::Label;

/// The labels that a target depends on, in order, each with the frozen value that it is: this is
/// made once, and lent to each who reads it. To a contract they are the labels.
#[derive(Drop)]
pub struct Needed {
    labels: Sequence<Shared<Label>>,
    trees: Vec<Frozen>,
}

impl Model for Needed {
    ghost use Rattle.std.specs.Prelude.{◌≡◌, List, map};
    ghost use Rattle.workspace.specs.Labels.{LabelParts};
    ghost use Rattle.analysis.specs.Needed.{label_tree};

    ghost Value = { List LabelParts };

    ghost view = { λ n. n.labels };

    ghost invariant = { λ n. n.trees.items ≡ map label_tree n.labels };
}

impl Needed {
    /// These labels.
    ///
    /// # Errors
    ///
    /// `AllocError` where memory was refused.
    pub fn new(alloc: Global, labels: Sequence<Shared<Label>>) -> Result<Needed, AllocError>
        ensures { IfOk result (λ n. n ≡ labels) }
    {
        let trees = label_trees(alloc, labels.as_slice())?;
        Ok(Needed { labels, trees })
    }

    /// The labels, in order.
    pub fn labels(&self) -> &[Shared<Label>]
        ensures { result.now ≡ self.now }
    {
        self.labels.as_slice()
    }

    /// The dependency on the label at a place, if there is one, of which this became.
    pub fn dependency<'a>(&'a self, place: usize, outcome: &'a Outcome) -> Option<Dependency<'a>>
        ensures { option_map dependency_seen result
            ≡ option_map (λ l. (l, outcome.now)) (slice_get self.now place) }
    {
        let labels = self.labels.as_slice();
        if place < labels.len() {
            Some(Dependency {
                label: &labels[place],
                tree: &self.trees[place],
                outcome,
            })
        } else {
            None
        }
    }
}

/// Labels as frozen values.
fn label_trees(alloc: Global, labels: &[Shared<Label>]) -> Result<Vec<Frozen>, AllocError>
    ensures { IfOk result (λ ts. ts.items ≡ map label_tree labels.now) }
{
    let mut trees = Vec::with_capacity(alloc, labels.len())?;
    for label in labels {
        put_tree(label.get(), &mut trees)?;
    }
    Ok(trees)
}

/// Puts a label as a frozen value last.
fn put_tree(label: &Label, trees: &mut Vec<Frozen>) -> Result<(), AllocError>
    ensures { OnOk result (trees.new.items ≡ trees.old.items ++ label_tree label.now ∷ []) }
{
    let text = label.shared_text().share()?;
    trees.push(Frozen::of_leaf(Leaf::Label(text)))?;
    Ok(())
}
