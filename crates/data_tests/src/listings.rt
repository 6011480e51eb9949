//! The greatest list of a depset, and one that is too large. Worked depsets are shown by the stored
//! runs of `serve_check`.
use crate::made_depsets::{made, over};
use depsets::{Depset, Element, ListError};
use std::alloc::{AllocError, Global};

/// The numbers below a count, as elements.
fn numbers(alloc: Global, count: i64) -> Result<Vec<Element>, AllocError> {
    let mut elements = Vec::new(alloc);
    for number in 0..count {
        elements.push(Element::Number(number))?;
    }
    Ok(elements)
}

/// A depset of as many elements as a list may have; its number is none of them.
fn full(alloc: Global) -> Option<Depset> {
    match numbers(alloc, 1_048_576) {
        Ok(direct) => made(alloc, 2_000_000, direct, Vec::new(alloc)),
        Err(_) => None,
    }
}

/// Whether its list would be too large, and its whole listing has so many elements.
fn is_larger(alloc: Global, depset: &Depset, count: usize) -> bool {
    if !matches!(depset.to_list(alloc), Err(ListError::Large)) {
        return false;
    }
    match depset.list_whole(alloc) {
        Ok(listing) => listing.items.len() == count,
        Err(_) => false,
    }
}

/// Whether a depset over this one that has one element more is too large for a list.
fn is_greatest(alloc: Global, depset: Depset) -> bool {
    match over(alloc, 2_000_001, depset) {
        Some(more) => is_larger(alloc, &more, 1_048_577),
        None => false,
    }
}

#[test]
fn greatest_list(rt: HostRuntime) {
    let alloc = rt.alloc();
    let is_so = match full(alloc) {
        Some(depset) => depset.to_list(alloc).is_ok() && is_greatest(alloc, depset),
        None => false,
    };
    assert!(rt; is_so);
}
