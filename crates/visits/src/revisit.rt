//! Freezing what is frozen already: each value in it is visited again, and the whole is shared by a
//! count. Where what was noted of a value fits in the levels and the ticks that are left, its visit
//! is one comparison; else it is walked, which finds the first fault.
ghost use Rattle.std.specs.Prelude.{◌≡◌, Ok, MatchResult, true, false};
ghost use Rattle.ticks.specs.Ticking.{Says, after_tick, entered};
ghost use Rattle.values.specs.Tree.{branch, trees, pairs};
ghost use Rattle.values.specs.View.{tree_of, node_branch};
ghost use Rattle.leaves.specs.Leaves.{can_freeze};
ghost use Rattle.visits.specs.Revisit.{AtOnce, Goes, visit_at, visited, branch_visited};
ghost use Rattle.visits.specs.Revisit.{all_visited, entry_visited, slot_visited};
ghost use Rattle.visits.specs.Revisit.{values_in};

use indexmap::IndexSet;
use values::{Branch, Broken, Extent, Frozen, Held, Key, Kind, Leaf, Node, Ticks};

/// A second name of a frozen value with parts, after its visit.
pub(crate) fn freeze_branch(left: u32, limb: &Branch, ticks: &mut Ticks) -> Result<Frozen, Broken>
    ensures { Says (after_tick (visit_at left (branch limb.now) ticks.old)
        (λ d. Ok (branch limb.now, d))) result ticks.new }
{
    visit_branch(left, limb, ticks)?;
    let shared = limb.share()?;
    Ok(Frozen::of_branch(shared))
}

/// The visit of a value of which this was noted at once, with this many levels left; and whether it
/// could be.
fn visit_at_once(left: u32, noted: Extent, ticks: &mut Ticks) -> bool
    ensures { AtOnce result left noted ticks.old ticks.new }
{
    let Extent {
        values,
        levels,
        is_whole,
    } = noted;
    if !is_whole {
        return false;
    }
    if u32::from(levels) > left {
        return false;
    }
    ticks.spend(u64::from(values))
}

/// The visit of a frozen value with parts, with this many levels left.
fn visit_branch(left: u32, limb: &Branch, ticks: &mut Ticks) -> Result<(), Kind>
    ensures { Goes (visit_at left (branch limb.now) ticks.old) result ticks.new }
{
    if visit_at_once(left, limb.extent(), ticks) {
        return Ok(());
    }
    if let Err(kind) = ticks.enter(left) {
        return Err(kind);
    }
    visit_node(left - 1, limb.node(), ticks)
}

/// The visit of a leaf that is frozen.
fn visit_leaf(leaf: &Leaf) -> Result<(), Kind>
    ensures { MatchResult result (λ _. can_freeze leaf.now ≡ true)
        (λ k. (k ≡ Kind.Wrong) × (can_freeze leaf.now ≡ false)) }
{
    if leaf.can_be_frozen() {
        Ok(())
    } else {
        Err(Kind::Wrong)
    }
}

/// The visit of a frozen value, with this many levels left.
#[cycle(visit)]
fn visit_tree(left: u32, tree: &Frozen, ticks: &mut Ticks) -> Result<(), Kind>
    ensures { Goes (visit_at left tree.now ticks.old) result ticks.new }
{
    if visit_at_once(left, tree.extent(), ticks) {
        return Ok(());
    }
    if let Err(kind) = ticks.enter(left) {
        return Err(kind);
    }
    visit_held(left - 1, tree.held(), ticks)
}

/// The visits below a frozen value.
#[cycle(visit)]
fn visit_held(left: u32, held: &Held, ticks: &mut Ticks) -> Result<(), Kind>
    ensures { Goes (visited (entered left) (visit_at left) (tree_of held.now) ticks.old) result
        ticks.new }
{
    match held {
        Held::Key(_) => Ok(()),
        Held::Leaf(leaf) => visit_leaf(leaf),
        Held::Branch(limb) => visit_node(left, limb.node(), ticks),
    }
}

/// The visits of the parts of a frozen value.
#[cycle(visit)]
fn visit_node(left: u32, node: &Node, ticks: &mut Ticks) -> Result<(), Kind>
    ensures { Goes (branch_visited (entered left) (visit_at left) (node_branch node.now) ticks.old)
        result ticks.new }
{
    match node {
        Node::List(items) => visit_trees(left, items.as_slice(), ticks),
        Node::Tuple(items) => visit_trees(left, items.as_slice(), ticks),
        Node::Dict(keys, values) => visit_pairs(left, keys, values.as_slice(), ticks),
        Node::Instance(_, fields) => visit_slots(left, fields.as_slice(), ticks),
    }
}

/// The visits of frozen values, from left to right.
#[cycle(visit)]
fn visit_trees(left: u32, trees: &[Frozen], ticks: &mut Ticks) -> Result<(), Kind>
    ensures { Goes (all_visited (visit_at left) trees.now ticks.old) result ticks.new }
{
    for tree in trees {
        if let Err(kind) = visit_tree(left, tree, ticks) {
            return Err(kind);
        }
    }
    Ok(())
}

/// The visits of frozen entries, from left to right: of each key, and then of its value.
#[cycle(visit)]
fn visit_pairs(
    left: u32,
    keys: &IndexSet<Key>,
    values: &[Frozen],
    ticks: &mut Ticks,
) -> Result<(), Kind>
    ensures { Goes (all_visited (entry_visited (entered left) (visit_at left))
        (values_in (pairs keys.now.keys values.now)) ticks.old) result ticks.new }
{
    for tree in values.iter().take(keys.len()) {
        if let Err(kind) = visit_entry(left, tree, ticks) {
            return Err(kind);
        }
    }
    Ok(())
}

/// The visit of a key, and then that of its value.
#[cycle(visit)]
fn visit_entry(left: u32, tree: &Frozen, ticks: &mut Ticks) -> Result<(), Kind>
    ensures { Goes (entry_visited (entered left) (visit_at left) tree.now ticks.old) result
        ticks.new }
{
    ticks.enter(left)?;
    visit_tree(left, tree, ticks)
}

/// The visits of the fields that were given, in order.
#[cycle(visit)]
fn visit_slots(left: u32, slots: &[Option<Frozen>], ticks: &mut Ticks) -> Result<(), Kind>
    ensures { Goes (all_visited (slot_visited (visit_at left)) slots.now ticks.old) result
        ticks.new }
{
    for slot in slots {
        if let Err(kind) = visit_slot(left, slot, ticks) {
            return Err(kind);
        }
    }
    Ok(())
}

/// The visit of a field, where it was given.
#[cycle(visit)]
fn visit_slot(left: u32, slot: &Option<Frozen>, ticks: &mut Ticks) -> Result<(), Kind>
    ensures { Goes (slot_visited (visit_at left) slot.now ticks.old) result ticks.new }
{
    match slot {
        Some(tree) => visit_tree(left, tree, ticks),
        None => Ok(()),
    }
}
