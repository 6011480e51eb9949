//! Freezing what a module leaves.
ghost use Rattle.std.specs.Prelude.{◌≡◌, ◌++◌, ◌∷◌, [], Ok, OnOk, MatchResult};
ghost use Rattle.ticks.specs.Ticking.{Says, FaultOr};
ghost use Rattle.values.specs.Visits.{all_of};
ghost use Rattle.visits.specs.Freeze.{freeze_at, frozen_slot};

use heap::Heap;
use operations::Defaults;
use std::alloc::{AllocError, Global};
use targets::Sequence;
use values::{Broken, Frozen, Operand, Ticks, VISITED_LEVELS};
use visits::freeze;

/// The frozen value of a global, if it is bound.
fn freeze_slot(
    alloc: Global,
    slot: &Option<Operand<'_>>,
    heap: &Heap,
    ticks: &mut Ticks,
) -> Result<Option<Frozen>, Broken>
    ensures { Says (frozen_slot (freeze_at VISITED_LEVELS heap.now) slot.now ticks.old) result
        ticks.new }
{
    match slot {
        Some(value) => Ok(Some(freeze(alloc, value.item(), heap, ticks)?)),
        None => Ok(None),
    }
}

/// Puts what a global has last.
fn keep_slot(kept: &mut Vec<Option<Frozen>>, tree: Option<Frozen>) -> Result<(), AllocError>
    ensures { OnOk result (kept.new.items ≡ kept.old.items ++ tree ∷ []) }
{
    kept.push(tree)?;
    Ok(())
}

/// The frozen values of the globals, in the order in which they were bound.
///
/// # Errors
///
/// `steps`, `deep` and `type`, as freezing has them. After a `Broken` the ticks are open.
pub(crate) fn freeze_globals(
    alloc: Global,
    globals: &[Option<Operand<'_>>],
    heap: &Heap,
    ticks: &mut Ticks,
) -> Result<Vec<Option<Frozen>>, Broken>
    ensures { MatchResult result (λ v. all_of (frozen_slot (freeze_at VISITED_LEVELS heap.now))
        globals.now ticks.old ≡ Ok (v.items, ticks.new)) (λ e. FaultOr
        (all_of (frozen_slot (freeze_at VISITED_LEVELS heap.now)) globals.now ticks.old) e) }
{
    let mut kept = Vec::with_capacity(alloc, globals.len())?;
    for slot in globals {
        match freeze_slot(alloc, slot, heap, ticks) {
            Ok(tree) => keep_slot(&mut kept, tree)?,
            Err(broken) => return Err(broken),
        }
    }
    Ok(kept)
}

/// The frozen value of a default.
fn freeze_value(
    alloc: Global,
    value: &Operand<'_>,
    heap: &Heap,
    ticks: &mut Ticks,
) -> Result<Frozen, Broken>
    ensures { Says (freeze_at VISITED_LEVELS heap.now value.now ticks.old) result ticks.new }
{
    freeze(alloc, value.item(), heap, ticks)
}

/// The frozen defaults of a function, in the order of its parameters.
pub(crate) fn freeze_items(
    alloc: Global,
    values: &[Operand<'_>],
    heap: &Heap,
    ticks: &mut Ticks,
) -> Result<Sequence<Frozen>, Broken>
    ensures { Says (all_of (freeze_at VISITED_LEVELS heap.now) values.now ticks.old) result
        ticks.new }
{
    let mut kept = Sequence::with_capacity(alloc, values.len())?;
    for value in values {
        match freeze_value(alloc, value, heap, ticks) {
            Ok(tree) => kept.push(tree)?,
            Err(broken) => return Err(broken),
        }
    }
    Ok(kept)
}

/// The frozen defaults of functions, by number.
///
/// # Errors
///
/// `steps`, `deep` and `type`, as freezing has them. After a `Broken` the ticks are open.
pub(crate) fn freeze_defaults(
    alloc: Global,
    defaults: &Defaults,
    heap: &Heap,
    ticks: &mut Ticks,
) -> Result<Sequence<Sequence<Frozen>>, Broken>
    ensures { Says (all_of (all_of (freeze_at VISITED_LEVELS heap.now)) defaults.now ticks.old)
        result ticks.new }
{
    let mut kept = Sequence::with_capacity(alloc, defaults.len())?;
    for i in 0..defaults.len() {
        let Some(items) = defaults.get(i) else {
            return Ok(kept);
        };
        match freeze_items(alloc, items.as_slice(), heap, ticks) {
            Ok(trees) => kept.push(trees)?,
            Err(broken) => return Err(broken),
        }
    }
    Ok(kept)
}
