//! How many levels a frozen value has.
use std::alloc::{AllocError, Global};
use values::{Branch, Frozen, Leaf};

/// A list in lists, so many levels with what is in the last.
fn nested(alloc: Global, levels: usize) -> Result<Frozen, AllocError> {
    let mut tree = Frozen::of_leaf(Leaf::None);
    for _ in 1..levels {
        let items = Vec::from_array(alloc, [tree])?;
        tree = Frozen::of_branch(Branch::list(alloc, items)?);
    }
    Ok(tree)
}

/// Whether a value of so many levels is made.
fn is_made(alloc: Global, levels: usize) -> bool {
    nested(alloc, levels).is_ok()
}

#[test]
fn a_frozen_value_has_64_levels_at_most(rt: HostRuntime) {
    assert!(rt; is_made(rt.alloc(), 64));
    assert!(rt; !is_made(rt.alloc(), 65));
}
