//! The nodes of a graph in the order of their labels.
ghost use Rattle.std.specs.Prelude.{◌≡◌, ◌<◌, true, IfOk, length, map};
ghost use Rattle.std.specs.List.{All};
ghost use Rattle.workspace.specs.Labels.{is_label};
ghost use Rattle.graph.specs.Same.{label_at};
ghost use Rattle.label_order.specs.Ordered.{entry_seen, entries, keyed_seen, IsKeyed, AreInOrder};

use edges::NodeId;
use graph::Graph;
use std::alloc::{AllocError, Global};
use workspace::Label;

/// A label, and the number of its node.
pub type Entry<'g> = (&'g Label, usize);

/// The label of a node.
fn label_of(graph: &Graph, n: usize) -> &Label
    requires { n < length graph.now.labels }
    ensures value { result.now ≡ label_at graph.now.labels n }
    ensures legal { is_label result.now ≡ true }
{
    let label = graph.label(NodeId::of(n)).get();
    label.legal();
    label
}

/// The text of a label, by which it is compared where the text lies, and its entry.
type Keyed<'g> = (&'g str, Entry<'g>);

/// All labels by their texts, with the numbers of their nodes, in the order of numbers.
fn numbered(alloc: Global, graph: &Graph) -> Result<Vec<Keyed<'_>>, AllocError>
    ensures entries { IfOk result (λ v. map keyed_seen v.items ≡ entries graph.now.labels) }
    ensures keyed { IfOk result (λ v. All IsKeyed v.items) }
{
    let mut all: Vec<Keyed<'_>> = Vec::with_capacity(alloc, graph.nodes())?;
    for n in 0..graph.nodes() {
        let label = label_of(graph, n);
        all.push((label.text(), (label, n)))?;
    }
    Ok(all)
}

/// The entries of these, in their order.
fn entries_of<'g>(alloc: Global, keyed: &[Keyed<'g>]) -> Result<Vec<Entry<'g>>, AllocError>
    ensures { IfOk result (λ v. v.items ≡ map (λ k. k.1) keyed.now) }
{
    let mut all: Vec<Entry<'g>> = Vec::with_capacity(alloc, keyed.len())?;
    for one in keyed {
        all.push(one.1)?;
    }
    Ok(all)
}

/// All labels, with the numbers of their nodes, in the order of the labels' texts.
///
/// # Errors
///
/// `AllocError` where memory was refused.
pub fn by_label(alloc: Global, graph: &Graph) -> Result<Vec<Entry<'_>>, AllocError>
    ensures numbers { IfOk result (λ v. All (λ e. e.1 < length graph.now.labels) v.items) }
    ensures order { IfOk result (λ v. AreInOrder graph.now.labels (map entry_seen v.items)) }
{
    // Called for its contract alone: no two nodes have the same label, so no two texts are equal.
    let _nodes = graph.nodes();
    let mut keyed = numbered(alloc, graph)?;
    keyed.sort()?;
    let entries = entries_of(alloc, &keyed)?;
    Ok(entries)
}
