//! Graphs for tests and benchmarks.
use edges::{Adjacency, Edges, NodeId, Numbered};
use std::alloc::{AllocError, Global};

/// The graph of these rows under new numbers, if they are a graph's.
///
/// # Errors
///
/// `AllocError` where memory was refused.
pub fn graph_of(alloc: Global, rows: Adjacency) -> Result<Option<Numbered>, AllocError> {
    if !rows.is_graph(alloc)? {
        return Ok(None);
    }
    let graph = Edges::of(alloc, rows)?;
    Ok(Some(graph))
}

/// The graph of a few rows, if they are a graph's.
///
/// # Errors
///
/// `AllocError` where memory was refused.
pub fn small(alloc: Global, rows: &[&[usize]]) -> Result<Option<Numbered>, AllocError> {
    let mut all = Adjacency::with_capacity(alloc, 16, 16)?;
    let mut list = Vec::new(alloc);
    for row in rows {
        list.clear();
        for d in row.iter() {
            list.push(NodeId::of(*d))?;
        }
        all.push(&list)?;
    }
    graph_of(alloc, all)
}

/// Node 0, nodes 1 and 2 that depend on it, and node 3 that depends on these.
///
/// # Errors
///
/// `AllocError` where memory was refused.
pub fn diamond(alloc: Global) -> Result<Option<Numbered>, AllocError> {
    let rows: [&[usize]; 4] = [&[], &[0], &[0], &[1, 2]];
    small(alloc, &rows)
}

/// So many nodes, each of which depends on the one before it.
///
/// # Errors
///
/// `AllocError` where memory was refused.
pub fn chain(alloc: Global, nodes: usize) -> Result<Option<Numbered>, AllocError> {
    layers(alloc, nodes, 1, 1)
}

/// So many nodes with no edge.
///
/// # Errors
///
/// `AllocError` where memory was refused.
pub fn apart(alloc: Global, nodes: usize) -> Result<Option<Numbered>, AllocError> {
    layers(alloc, nodes, 1, 0)
}

/// So many nodes in layers of `width`. Each depends on up to `degree` nodes of the layer before it:
/// the one in its own place there, and those behind that.
///
/// # Errors
///
/// `AllocError` where memory was refused.
pub fn layers(
    alloc: Global,
    nodes: usize,
    width: usize,
    degree: usize,
) -> Result<Option<Numbered>, AllocError> {
    let mut rows = Adjacency::with_capacity(alloc, 0, 0)?;
    let mut list = Vec::new(alloc);
    for n in 0..nodes {
        list.clear();
        push_layer_before(&mut list, n, width, degree)?;
        rows.push(&list)?;
    }
    graph_of(alloc, rows)
}

/// Adds the nodes on which node `n` of such layers depends.
fn push_layer_before(
    list: &mut Vec<NodeId>,
    n: usize,
    width: usize,
    degree: usize,
) -> Result<(), AllocError> {
    if width == 0 || n < width {
        return Ok(());
    }
    let first = n - width;
    let end = first.saturating_add(degree).min(n - n % width);
    for d in first..end {
        list.push(NodeId::of(d))?;
    }
    Ok(())
}
