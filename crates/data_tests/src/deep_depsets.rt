//! A depset of the greatest depth, made, listed and let go on a thread with a small stack.
use crate::made_depsets::{one, over};
use depsets::{Depset, LEVELS};
use std::alloc::Global;
use std::test::Fail;
use std::thread::Builder;

/// The stack on which it is made, listed and let go.
const STACK: usize = 256 * 1024;

/// A depset of so many levels, each of one element.
fn chain(alloc: Global, levels: u64) -> Option<Depset> {
    let mut depset = one(alloc, 1)?;
    for serial in 2..=levels {
        depset = over(alloc, serial, depset)?;
    }
    Some(depset)
}

/// Whether a depset lists so many elements.
fn lists(alloc: Global, depset: &Depset, count: usize) -> bool {
    match depset.to_list(alloc) {
        Ok(listing) => listing.items.len() == count,
        Err(_) => false,
    }
}

/// Whether the deepest depset lists an element a level, and no level more is made.
fn is_deepest(alloc: Global) -> bool {
    match chain(alloc, u64::from(LEVELS)) {
        Some(depset) => lists(alloc, &depset, 1_000) && over(alloc, 1_001, depset).is_none(),
        None => false,
    }
}

#[test]
fn the_deepest_depset_takes_little_stack(rt: HostRuntime) -> Result<(), Fail> {
    let alloc = rt.alloc();
    let small = Builder::new().stack_size(STACK);
    let child = small.spawn(&rt, move || is_deepest(alloc))?;
    assert!(rt; child.join(&rt));
    Ok(())
}
