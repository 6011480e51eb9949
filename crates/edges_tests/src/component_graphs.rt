//! Graphs for tests.
use components::{Components, is_inside};
use edges::{Adjacency, NodeId};
use std::alloc::{AllocError, Global};

/// The components of a graph, if its dependencies are nodes.
pub(crate) fn found(alloc: Global, rows: Adjacency) -> Result<Option<Components>, AllocError> {
    if !is_inside(&rows) {
        return Ok(None);
    }
    Ok(Some(Components::of(alloc, rows)?))
}

/// The rows of these dependencies.
pub(crate) fn rows_of(alloc: Global, rows: &[&[usize]]) -> Result<Adjacency, AllocError> {
    let mut all = Adjacency::with_capacity(alloc, 16, 16)?;
    let mut list = Vec::new(alloc);
    for row in rows {
        list.clear();
        for d in row.iter() {
            list.push(NodeId::of(*d))?;
        }
        all.push(&list)?;
    }
    Ok(all)
}
