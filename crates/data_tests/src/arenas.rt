//! What an arena keeps is lent, however much is kept after it: no clause says that it answers.
use arena::Arena;
use std::alloc::{AllocError, Global};

/// Keeps the numbers below this one, and lends them.
fn kept(alloc: Global, arena: &Arena<u64>, count: u64) -> Result<Vec<&u64>, AllocError> {
    let mut numbers = Vec::new(alloc);
    for number in 0..count {
        numbers.push(arena.keep(alloc, number)?)?;
    }
    Ok(numbers)
}

/// Whether the numbers are those from 0 on.
fn are_in_order(numbers: &[&u64]) -> bool {
    let mut next = 0u64;
    for number in numbers {
        if **number != next {
            return false;
        }
        next = next.saturating_add(1);
    }
    true
}

#[test]
fn an_arena_lends_what_it_keeps(rt: HostRuntime) -> Result<(), AllocError> {
    let arena = Arena::new();
    let numbers = kept(rt.alloc(), &arena, 1000)?;
    assert!(rt; numbers.len() == 1000 && are_in_order(numbers.as_slice()));
    Ok(())
}
