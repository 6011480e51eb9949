//! The numbers of labels.
ghost use Rattle.std.specs.Prelude.{◌≡◌, ◌∷◌, ◌++◌, [], ◌<◌, ◌≤◌, false, length, IfOk, IfErr, OnOk};
ghost use Rattle.std.specs.Prelude.{OnErr};
ghost use Rattle.std.specs.List.{list_any};
ghost use Rattle.workspace.specs.Labels.{same_label};
ghost use Rattle.graph.specs.Same.{no_label, label_at};
ghost use Rattle.graph.specs.Numbering.{Grown, AreNumbers};

use crate::node::{Node, Wanted};
use crate::refused::GraphRefused;
use edges::NodeId;
use indexmap::IndexSet;
use plain::Shared;
use std::alloc::{AllocError, Global};
use std::marker::Model;
use workspace::Label;

/// Labels by number, each found by one look.
#[derive(Drop)]
pub struct Numbers {
    nodes: IndexSet<Node>,
}

impl Model for Numbers {
    ghost use Rattle.std.specs.Prelude.{List};
    ghost use Rattle.workspace.specs.Labels.{LabelParts};

    ghost Value = { List LabelParts };

    ghost view = { λ n. n.nodes.keys };
}

impl Numbers {
    /// No labels.
    pub fn new(alloc: Global) -> Numbers
        ensures { result ≡ [] }
    {
        Numbers {
            nodes: IndexSet::new(alloc),
        }
    }

    /// How many labels there are.
    pub fn len(&self) -> usize
        ensures { result ≡ length self.now }
    {
        self.nodes.len()
    }

    /// The label of a number.
    pub fn label(&self, number: usize) -> &Shared<Label>
        requires { number < length self.now }
        ensures { result.now ≡ label_at self.now number }
    {
        let node = &self.nodes.as_slice()[number];
        &node.label
    }

    /// Gives the next number to a label that has none. After a refusal of memory the labels are as
    /// they were.
    fn add(&mut self, label: &Shared<Label>) -> Result<(), AllocError>
        requires new { list_any (same_label label.now) self.old ≡ false }
        ensures ok { OnOk result (self.new ≡ self.old ++ label.now ∷ []) }
        ensures err { OnErr result (self.new ≡ self.old) }
        ensures grown { Grown same_label self.old (label.now ∷ []) self.new }
    {
        let label = label.share()?;
        self.nodes.insert(Node { label })?;
        Ok(())
    }

    /// The number of a label, which is a new one where it had none.
    fn number(&mut self, label: &Shared<Label>, limit: usize) -> Result<NodeId, GraphRefused>
        requires within { length self.old ≤ limit }
        ensures grown { Grown same_label self.old (label.now ∷ []) self.new }
        ensures inside { IfOk result (λ n. n < length self.new) }
        ensures number { IfOk result (λ n. label_at self.new n ≡ label.now) }
        ensures within { OnOk result (length self.new ≤ limit) }
        ensures many { IfErr result (λ e. e ≡ GraphRefused.TooMany → limit < length self.new) }
    {
        if let Some(number) = self.nodes.get_index_of(Wanted { label: label.get() }) {
            return Ok(NodeId::of(number));
        }
        let number = self.len();
        self.add(label)?;
        if self.len() > limit {
            return Err(GraphRefused::TooMany);
        }
        Ok(NodeId::of(number))
    }

    /// The numbers of labels, put in the place of those in a list.
    ///
    /// # Errors
    ///
    /// `TooMany` where there are more labels than the limit then; `NoMemory` where memory was
    /// refused. Some labels may have new numbers then.
    pub fn number_all(
        &mut self,
        numbers: &mut Vec<NodeId>,
        labels: &[Shared<Label>],
        limit: usize,
    ) -> Result<(), GraphRefused>
        requires within { length self.old ≤ limit }
        ensures grown { Grown same_label self.old labels.now self.new }
        ensures numbers { OnOk result (AreNumbers no_label self.new labels.now numbers.new.items) }
        ensures within { OnOk result (length self.new ≤ limit) }
        ensures many { IfErr result (λ e. e ≡ GraphRefused.TooMany → limit < length self.new) }
    {
        numbers.clear();
        for label in labels {
            let number = self.number(label, limit)?;
            let Ok(()) = numbers.push(number) else {
                return Err(GraphRefused::NoMemory);
            };
        }
        Ok(())
    }
}
