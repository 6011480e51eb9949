//! The graph of what is reached from labels.
ghost use Rattle.std.specs.Prelude.{◌≡◌, ◌↔◌, ◌<◌, ◌≤◌, ℕ, length, map, IfOk, IfErr, IsTrue};
ghost use Rattle.std.specs.Prelude.{slice_index};
ghost use Rattle.std.specs.List.{IsDistinct};
ghost use Rattle.edges.specs.Walks.{Cyclic};
ghost use Rattle.edges.specs.Rows.{row, users_of, ready_of};
ghost use Rattle.graph.specs.Same.{label_at};
ghost use Rattle.workspace.specs.Labels.{same_label};
ghost use Rattle.graph.specs.Reached.{TooManyReached};
ghost use Rattle.graph.specs.Graphs.{IsGraphOf};

use crate::dependencies::Dependencies;
use crate::numbers::Numbers;
use crate::reached::{Reached, reached_from};
use crate::refused::GraphRefused;
use edges::{Edges, NodeId, Numbered};
use plain::Shared;
use std::alloc::{AllocError, Global};
use std::marker::Model;
use workspace::Label;

/// The labels that are reached, by number from 0, and who depends on whom.
///
/// The nodes that are not cyclic come first, each after all that it depends on.
pub struct Graph {
    labels: Vec<Shared<Label>>,
    edges: Edges,
}

impl Drop for Graph {
    fn drop(self) {
        let Graph {
            labels: _,
            edges: _,
        } = self;
    }
}

impl Model for Graph {
    ghost use Rattle.std.specs.Prelude.{◌≡◌, length};
    ghost use Rattle.std.specs.List.{IsDistinct};
    ghost use Rattle.workspace.specs.Labels.{same_label};
    ghost use Rattle.graph.specs.Graphs.{GraphView};

    ghost Value = { GraphView };

    ghost view = { λ g. record { labels = g.labels.items; edges = g.edges } };

    ghost invariant = { λ g. (length g.edges.deps ≡ length g.labels.items)
        × IsDistinct same_label g.labels.items };
}

/// The same labels, each behind a count of its own.
fn shared(alloc: Global, labels: &[Label]) -> Result<Vec<Shared<Label>>, AllocError>
    ensures { IfOk result (λ v. v.items ≡ labels.now) }
{
    let mut all = Vec::with_capacity(alloc, labels.len())?;
    for label in labels {
        all.push(Shared::new(alloc, label.share()?)?)?;
    }
    Ok(all)
}

/// The labels of these numbers.
fn labels_of(
    alloc: Global,
    numbers: &Numbers,
    nodes: &[NodeId],
) -> Result<Vec<Shared<Label>>, AllocError>
    requires inside { (k : ℕ) → k < length nodes.now
        → slice_index nodes.now k < length numbers.now }
    ensures { IfOk result (λ v. v.items ≡ map (label_at numbers.now) nodes.now) }
{
    let mut labels = Vec::with_capacity(alloc, nodes.len())?;
    for node in nodes {
        labels.push(numbers.label(node.number()).share()?)?;
    }
    Ok(labels)
}

impl Graph {
    /// The graph of all that is reached from these labels, over what each depends on. It takes time
    /// by the number of nodes and edges.
    ///
    /// # Errors
    ///
    /// `TooMany` where more labels are reached than the limit: for these there is never a graph.
    /// `NoMemory` where memory was refused.
    pub fn of<S: Dependencies>(
        alloc: Global,
        source: &S,
        labels: &[Label],
        limit: usize,
    ) -> Result<Graph, GraphRefused>
        ensures graph { IfOk result (IsGraphOf (S.needs source.now) labels.now) }
        ensures within { IfOk result (λ g. length g.labels ≤ limit) }
        ensures many { IfErr result (λ e. e ≡ GraphRefused.TooMany
            → TooManyReached (S.needs source.now) labels.now same_label limit) }
    {
        let asked = shared(alloc, labels)?;
        let Reached { numbers, deps } = reached_from(alloc, source, &asked, limit)?;
        let Numbered { edges, origin } = Edges::of(alloc, deps)?;
        let labels = labels_of(alloc, &numbers, &origin)?;
        Ok(Graph { labels, edges })
    }

    /// How many nodes there are. No two have the same label.
    pub fn nodes(&self) -> usize
        ensures nodes { result ≡ length self.now.labels }
        ensures distinct { IsDistinct same_label self.now.labels }
    {
        self.labels.len()
    }

    /// The label of a node.
    pub fn label(&self, n: NodeId) -> &Shared<Label>
        requires node { n < length self.now.labels }
        ensures { result.now ≡ label_at self.now.labels n }
    {
        &self.labels[n.number()]
    }

    /// The edges between the nodes.
    pub fn edges(&self) -> &Edges
        ensures edges { result.now ≡ self.now.edges }
        ensures size { length self.now.edges.deps ≡ length self.now.labels }
    {
        let _nodes = self.labels.len();
        &self.edges
    }

    /// The nodes on which a node depends, in the order in which its label needs them.
    pub fn deps(&self, n: NodeId) -> &[NodeId]
        requires node { n < length self.now.labels }
        ensures { result.now ≡ row self.now.edges.deps n }
    {
        self.edges().deps(n)
    }

    /// The nodes that depend on a node, each once and by number.
    pub fn users(&self, n: NodeId) -> &[NodeId]
        requires node { n < length self.now.labels }
        ensures { result.now ≡ users_of self.now.edges.deps n }
    {
        self.edges().users(n)
    }

    /// Whether a walk leads from a node to one that lies on a cycle.
    pub fn cyclic(&self, n: NodeId) -> bool
        requires node { n < length self.now.labels }
        ensures { IsTrue result ↔ Cyclic (row self.now.edges.deps) n }
    {
        self.edges().cyclic(n)
    }

    /// The nodes that depend on none, by number. None of them is cyclic.
    pub fn ready(&self) -> &[NodeId]
        ensures { result.now ≡ ready_of self.now.edges.deps }
    {
        self.edges().ready()
    }
}
