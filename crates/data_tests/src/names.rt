//! Second names of what is frozen.
use std::alloc::{AllocError, Global};
use values::{Branch, Frozen, Leaf};

/// A frozen pair of the value twice.
fn twice(alloc: Global, value: &Frozen) -> Result<Frozen, AllocError> {
    let both = Vec::from_array(alloc, [value.share()?, value.share()?])?;
    Ok(Frozen::of_branch(Branch::tuple(alloc, both)?))
}

/// So many pairs, each of which is the one before it twice.
fn doubled(alloc: Global, times: usize) -> Result<Frozen, AllocError> {
    let mut pair = Frozen::of_leaf(Leaf::None);
    for _ in 0..times {
        pair = twice(alloc, &pair)?;
    }
    Ok(pair)
}

#[test]
fn second_names_are_no_copies(rt: HostRuntime) -> Result<(), AllocError> {
    let pair = doubled(rt.alloc(), 60)?;
    assert!(rt; pair.share().is_ok(), "2^60 leaves, in 60 pairs");
    Ok(())
}
