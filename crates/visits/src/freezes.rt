//! Freezing: the tree of a value.
//!
//! Each cell becomes one counted node. What is frozen already is visited again, which costs its
//! ticks, and is then shared by a count: nothing of it is copied.
ghost use Rattle.std.specs.Prelude.{◌≡◌, Ok, Some, MatchResult, length};
ghost use Rattle.ticks.specs.Ticking.{Says, FaultOr, after_tick, with_count, entered};
ghost use Rattle.leaves.specs.Lent.{leaf_at};
ghost use Rattle.values.specs.Visits.{all_of};
ghost use Rattle.values.specs.declared.value.Value.TheVariants as held;
ghost use Rattle.values.specs.Seeing.{item_value};
ghost use Rattle.values.specs.Shape.{cell_shape};
ghost use Rattle.values.specs.Tree.{key as key_tree, branch, list, tuple, dict, instance, trees};
ghost use Rattle.values.specs.Tree.{pairs, slots};
ghost use Rattle.visits.specs.Freeze.{freeze_at, built, frozen_leaf, frozen_entry, frozen_slot};

use crate::revisit::freeze_branch;
use heap::Heap;
use indexmap::IndexSet;
use plain::{Shared, push_last};
use std::alloc::Global;
use values::{
    Branch, Broken, Cell, Entries, Frozen, Item, Key, Kind, LeafRef, Operand, Provider, Ticks,
    VISITED_LEVELS,
};

/// The tree of a value. Each value that is visited costs a tick, one that is frozen already too.
///
/// # Errors
///
/// `steps` at the tick past the limit; `deep` at a value at depth 65; `type` at a target, `attr`,
/// `ctx` or a part of it; each value is tested in this order. `NoMemory` where memory was refused.
/// After a `Broken` the ticks are open.
#[inline(always)]
pub fn freeze(
    alloc: Global,
    item: Item<'_>,
    heap: &Heap,
    ticks: &mut Ticks,
) -> Result<Frozen, Broken>
    ensures { Says (freeze_at VISITED_LEVELS heap.now (item_value item.entry) ticks.old) result
        ticks.new }
{
    freeze_within(alloc, VISITED_LEVELS, item, heap, ticks)
}

/// The visit of a key, and its frozen value.
#[inline(always)]
fn freeze_key(left: u32, key: &Key, ticks: &mut Ticks) -> Result<Frozen, Broken>
    ensures { Says (after_tick (entered left ticks.old) (λ d. Ok (key_tree key.now, d))) result
        ticks.new }
{
    ticks.enter(left)?;
    let key = key.share()?;
    Ok(Frozen::of_key(key))
}

/// A leaf as a frozen value, if it can be one.
fn leaf_tree(leaf: LeafRef<'_>) -> Result<Frozen, Broken>
    ensures { MatchResult result (λ t. frozen_leaf (leaf_at leaf.entry) ≡ Ok t)
        (λ e. FaultOr (frozen_leaf (leaf_at leaf.entry)) e) }
{
    if !leaf.can_be_frozen() {
        return Err(Broken::Kind(Kind::Wrong));
    }
    let leaf = leaf.share()?;
    Ok(Frozen::of_leaf(leaf))
}

/// The visit of a leaf, and its frozen value.
#[inline(always)]
fn freeze_leaf(left: u32, leaf: LeafRef<'_>, ticks: &mut Ticks) -> Result<Frozen, Broken>
    ensures { Says (after_tick (entered left ticks.old)
        (λ d. with_count (frozen_leaf (leaf_at leaf.entry)) d)) result ticks.new }
{
    ticks.enter(left)?;
    leaf_tree(leaf)
}

/// A frozen list of these items.
fn list_of(alloc: Global, items: Vec<Frozen>) -> Result<Frozen, Broken>
    ensures { MatchResult result (λ t. t ≡ branch (list (trees items.items)))
        (λ e. e ≡ Broken.NoMemory) }
{
    let limb = Branch::list(alloc, items)?;
    Ok(Frozen::of_branch(limb))
}

/// A frozen tuple of these items.
fn tuple_of(alloc: Global, items: Vec<Frozen>) -> Result<Frozen, Broken>
    ensures { MatchResult result (λ t. t ≡ branch (tuple (trees items.items)))
        (λ e. e ≡ Broken.NoMemory) }
{
    let limb = Branch::tuple(alloc, items)?;
    Ok(Frozen::of_branch(limb))
}

/// A frozen dict of these keys, each with the value at its place.
fn dict_of(alloc: Global, keys: IndexSet<Key>, values: Vec<Frozen>) -> Result<Frozen, Broken>
    requires { length keys.keys ≡ length values.items }
    ensures { MatchResult result (λ t. t ≡ branch (dict (pairs keys.keys values.items)))
        (λ e. e ≡ Broken.NoMemory) }
{
    let limb = Branch::dict(alloc, keys, values)?;
    Ok(Frozen::of_branch(limb))
}

/// A frozen instance of the provider, of which a second name is kept.
fn instance_of(
    alloc: Global,
    provider: &Shared<Provider>,
    fields: Vec<Option<Frozen>>,
) -> Result<Frozen, Broken>
    ensures { MatchResult result (λ t. t ≡ branch (instance provider.now (slots fields.items)))
        (λ e. e ≡ Broken.NoMemory) }
{
    let provider = provider.share()?;
    let limb = Branch::instance(alloc, provider, fields)?;
    Ok(Frozen::of_branch(limb))
}

/// The tree of a value, with this many levels left.
#[cycle(freeze)]
#[inline(always)]
fn freeze_within(
    alloc: Global,
    left: u32,
    item: Item<'_>,
    heap: &Heap,
    ticks: &mut Ticks,
) -> Result<Frozen, Broken>
    ensures { Says (freeze_at left heap.now (item_value item.entry) ticks.old) result ticks.new }
{
    match item {
        Item::Key(key) => freeze_key(left, key, ticks),
        Item::Leaf(leaf) => freeze_leaf(left, leaf, ticks),
        Item::Cell(number) => freeze_cell(alloc, left, number, heap, ticks),
        Item::Branch(limb) => freeze_branch(left, limb, ticks),
    }
}

/// The visit of a cell, and its tree.
#[cycle(freeze)]
fn freeze_cell(
    alloc: Global,
    left: u32,
    number: usize,
    heap: &Heap,
    ticks: &mut Ticks,
) -> Result<Frozen, Broken>
    ensures { Says (freeze_at left heap.now (held.Cell number) ticks.old) result ticks.new }
{
    if let Err(kind) = ticks.enter(left) {
        return Err(Broken::Kind(kind));
    }
    match heap.cell(number) {
        Some(cell) => freeze_parts(alloc, left - 1, cell, heap, ticks),
        None => Err(Broken::Kind(Kind::Wrong)),
    }
}

/// The tree of a cell.
#[cycle(freeze)]
fn freeze_parts(
    alloc: Global,
    left: u32,
    cell: &Cell,
    heap: &Heap,
    ticks: &mut Ticks,
) -> Result<Frozen, Broken>
    ensures { Says (built (entered left) (freeze_at left heap.now) (cell_shape (Some cell.now))
        ticks.old) result ticks.new }
{
    match cell {
        Cell::List(items, _) => match freeze_all(alloc, left, items.as_slice(), heap, ticks) {
            Ok(trees) => list_of(alloc, trees),
            Err(broken) => Err(broken),
        },
        Cell::Tuple(items) => match freeze_all(alloc, left, items.as_slice(), heap, ticks) {
            Ok(trees) => tuple_of(alloc, trees),
            Err(broken) => Err(broken),
        },
        Cell::Dict(entries, _) => {
            let entries = entries.get();
            let keys = entries.keys(alloc)?;
            match freeze_entries(alloc, left, entries, heap, ticks) {
                Ok(trees) => dict_of(alloc, keys, trees),
                Err(broken) => Err(broken),
            }
        }
        Cell::Instance(provider, fields) => {
            match freeze_slots(alloc, left, fields.as_slice(), heap, ticks) {
                Ok(trees) => instance_of(alloc, provider, trees),
                Err(broken) => Err(broken),
            }
        }
    }
}

/// The trees of values, from left to right.
#[cycle(freeze)]
fn freeze_all(
    alloc: Global,
    left: u32,
    values: &[Operand<'_>],
    heap: &Heap,
    ticks: &mut Ticks,
) -> Result<Vec<Frozen>, Broken>
    ensures { MatchResult result (λ v. all_of (freeze_at left heap.now) values.now ticks.old
        ≡ Ok (v.items, ticks.new)) (λ e. FaultOr
        (all_of (freeze_at left heap.now) values.now ticks.old) e) }
{
    let mut kept = Vec::with_capacity(alloc, values.len())?;
    for value in values {
        match freeze_within(alloc, left, value.item(), heap, ticks) {
            Ok(tree) => push_last(&mut kept, tree)?,
            Err(broken) => return Err(broken),
        }
    }
    Ok(kept)
}

/// The trees of the values of entries, from left to right; each key is visited before its value.
#[cycle(freeze)]
fn freeze_entries(
    alloc: Global,
    left: u32,
    entries: &Entries,
    heap: &Heap,
    ticks: &mut Ticks,
) -> Result<Vec<Frozen>, Broken>
    ensures { MatchResult result (λ v. all_of (frozen_entry (entered left)
        (freeze_at left heap.now)) entries.now ticks.old ≡ Ok (v.items, ticks.new))
        (λ e. FaultOr (all_of (frozen_entry (entered left) (freeze_at left heap.now)) entries.now
        ticks.old) e) }
{
    let mut kept = Vec::with_capacity(alloc, entries.len())?;
    for i in 0..entries.len() {
        let Some((_, value)) = entries.at(i) else {
            return Ok(kept);
        };
        match freeze_entry(alloc, left, value, heap, ticks) {
            Ok(tree) => push_last(&mut kept, tree)?,
            Err(broken) => return Err(broken),
        }
    }
    Ok(kept)
}

/// The visit of a key, and the tree of its value.
#[cycle(freeze)]
fn freeze_entry(
    alloc: Global,
    left: u32,
    value: &Operand<'_>,
    heap: &Heap,
    ticks: &mut Ticks,
) -> Result<Frozen, Broken>
    ensures { Says (after_tick (entered left ticks.old) (λ d. freeze_at left heap.now value.now d))
        result ticks.new }
{
    ticks.enter(left)?;
    freeze_within(alloc, left, value.item(), heap, ticks)
}

/// The trees of the fields that were given, in order.
#[cycle(freeze)]
fn freeze_slots(
    alloc: Global,
    left: u32,
    fields: &[Option<Operand<'_>>],
    heap: &Heap,
    ticks: &mut Ticks,
) -> Result<Vec<Option<Frozen>>, Broken>
    ensures { MatchResult result (λ v. all_of (frozen_slot (freeze_at left heap.now)) fields.now
        ticks.old ≡ Ok (v.items, ticks.new)) (λ e. FaultOr
        (all_of (frozen_slot (freeze_at left heap.now)) fields.now ticks.old) e) }
{
    let mut kept = Vec::with_capacity(alloc, fields.len())?;
    for field in fields {
        match freeze_slot(alloc, left, field, heap, ticks) {
            Ok(tree) => push_last(&mut kept, tree)?,
            Err(broken) => return Err(broken),
        }
    }
    Ok(kept)
}

/// The tree of a field, where it was given.
#[cycle(freeze)]
#[inline(always)]
fn freeze_slot(
    alloc: Global,
    left: u32,
    field: &Option<Operand<'_>>,
    heap: &Heap,
    ticks: &mut Ticks,
) -> Result<Option<Frozen>, Broken>
    ensures { Says (frozen_slot (freeze_at left heap.now) field.now ticks.old) result ticks.new }
{
    match field {
        Some(value) => match freeze_within(alloc, left, value.item(), heap, ticks) {
            Ok(tree) => Ok(Some(tree)),
            Err(broken) => Err(broken),
        },
        None => Ok(None),
    }
}
