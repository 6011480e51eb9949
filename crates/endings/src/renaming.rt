//! Frozen values, with what they hold under the names that it was given.
//!
//! What holds nothing that got a name stays the same node, of which another name is kept. A value
//! is at most as deep as what can be frozen.
ghost use Rattle.std.specs.Prelude.{◌≡◌, IfOk, false, map, option_map, unwrap_or};
ghost use Rattle.std.specs.Option.{option_or};
ghost use Rattle.values.specs.Tree.{branch};
ghost use Rattle.values.specs.View.{node_branch};
ghost use Rattle.evaluation.specs.Naming.{branch_named, named, slot_named};

use crate::naming::Naming;
use crate::parts::{
    Parts, new_dict, new_instance, new_list, new_tuple, or_new, paired, put, put_slot,
};
use indexmap::IndexSet;
use std::alloc::{AllocError, Global};
use values::{Branch, Frozen, Held, Key, Node};

/// A branch as a frozen value, if it is new.
fn new_tree(limb: Option<Branch>) -> Option<Frozen>
    ensures { result ≡ option_map branch limb }
{
    match limb {
        Some(limb) => Some(Frozen::of_branch(limb)),
        None => None,
    }
}

/// A frozen value with the names that were given; None where nothing changes.
#[cycle(rename)]
pub(crate) fn rename(
    alloc: Global,
    naming: &Naming,
    tree: &Frozen,
) -> Result<Option<Frozen>, AllocError>
    ensures { IfOk result (λ o. unwrap_or o tree.now ≡ named naming.now tree.now) }
{
    match tree.held() {
        Held::Key(_) => Ok(None),
        Held::Leaf(leaf) => naming.leaf(alloc, leaf),
        Held::Branch(limb) => Ok(new_tree(rename_node(alloc, naming, limb.node())?)),
    }
}

/// The branch of these parts.
#[cycle(rename)]
fn rename_node(alloc: Global, naming: &Naming, node: &Node) -> Result<Option<Branch>, AllocError>
    ensures { IfOk result
        (λ o. unwrap_or o (node_branch node.now) ≡ branch_named naming.now (node_branch node.now)) }
{
    match node {
        Node::List(items) => {
            let parts = rename_all(alloc, naming, items.as_slice())?;
            let limb = new_list(alloc, parts)?;
            Ok(limb)
        }
        Node::Tuple(items) => {
            let parts = rename_all(alloc, naming, items.as_slice())?;
            let limb = new_tuple(alloc, parts)?;
            Ok(limb)
        }
        Node::Dict(keys, values) => {
            let keys: &IndexSet<Key> = keys;
            let parts = rename_all(alloc, naming, paired(keys, values.as_slice()))?;
            let limb = new_dict(alloc, keys, parts)?;
            Ok(limb)
        }
        Node::Instance(provider, fields) => {
            let maker = naming.provider(alloc, provider)?;
            let parts = rename_fields(alloc, naming, fields.as_slice())?;
            let limb = new_instance(alloc, provider, maker, parts)?;
            Ok(limb)
        }
    }
}

/// Frozen values, one after the other.
#[cycle(rename)]
fn rename_all(alloc: Global, naming: &Naming, trees: &[Frozen]) -> Result<Parts<Frozen>, AllocError>
    ensures items { IfOk result (λ p. p.items.items ≡ map (named naming.now) trees.now) }
    ensures same { IfOk result
        (λ p. p.changed ≡ false → map (named naming.now) trees.now ≡ trees.now) }
{
    let mut items = Vec::with_capacity(alloc, trees.len())?;
    let mut changed = false;
    for tree in trees {
        let new = rename(alloc, naming, tree)?;
        changed = or_new(changed, &new);
        put(&mut items, tree, new)?;
    }
    Ok(Parts { items, changed })
}

/// The fields of an instance, one after the other.
#[cycle(rename)]
pub(crate) fn rename_fields(
    alloc: Global,
    naming: &Naming,
    fields: &[Option<Frozen>],
) -> Result<Parts<Option<Frozen>>, AllocError>
    ensures items { IfOk result (λ p. p.items.items ≡ map (slot_named naming.now) fields.now) }
    ensures same { IfOk result
        (λ p. p.changed ≡ false → map (slot_named naming.now) fields.now ≡ fields.now) }
{
    let mut items = Vec::with_capacity(alloc, fields.len())?;
    let mut changed = false;
    for slot in fields {
        let new = rename_slot(alloc, naming, slot)?;
        changed = or_new(changed, &new);
        put_slot(&mut items, slot, new)?;
    }
    Ok(Parts { items, changed })
}

/// The value of a field, where it was given; None where nothing changes.
#[cycle(rename)]
fn rename_slot(
    alloc: Global,
    naming: &Naming,
    slot: &Option<Frozen>,
) -> Result<Option<Frozen>, AllocError>
    ensures { IfOk result (λ o. option_or o slot.now ≡ slot_named naming.now slot.now) }
{
    match slot {
        Some(tree) => rename(alloc, naming, tree),
        None => Ok(None),
    }
}
