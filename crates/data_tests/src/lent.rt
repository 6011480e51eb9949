//! Operands of one's own and operands that are lent: what no clause says.
use operands::Operand;
use std::alloc::{AllocError, Global};
use values::{Branch, Entries, Frozen, Group, Item, Items, Key, MaybeLent, Seen, Value};

/// A frozen list of one number.
fn listed(alloc: Global) -> Result<Frozen, AllocError> {
    let items = Vec::from_array(alloc, [Frozen::of_key(Key::Number(9))])?;
    Ok(Frozen::of_branch(Branch::list(alloc, items)?))
}

/// Whether a second name of what is lent is lent too.
fn is_lent_again(tree: &Frozen) -> bool {
    match Operand::lent(tree.item()).share() {
        Ok(again) => again.lent_seen().is_some(),
        Err(_) => false,
    }
}

/// Whether a branch is one's own once it is kept.
fn is_kept(tree: &Frozen) -> bool {
    match Operand::lent(tree.item()).into_own() {
        Ok(kept) => matches!(kept.item(), Item::Branch(_)) && kept.lent_seen().is_none(),
        Err(_) => false,
    }
}

/// Whether a list that is lent is seen for as long as that.
fn is_seen(tree: &Frozen) -> bool {
    let seen = Operand::lent(tree.item()).lent_seen();
    matches!(seen, Some(Seen::List(Group::Lent(_))))
}

#[test]
fn what_is_lent_stays_lent(rt: HostRuntime) -> Result<(), AllocError> {
    let tree = listed(rt.alloc())?;
    assert!(rt; is_lent_again(&tree) && is_kept(&tree) && is_seen(&tree));
    Ok(())
}

/// Whether the first of some items is lent when it is read.
pub(crate) fn is_first_lent(group: Group<'_, '_>) -> Result<bool, AllocError> {
    if group.len() == 0 {
        return Ok(false);
    }
    Ok(group.operand(0)?.lent_seen().is_some())
}

/// Whether what a list of a heap holds of what is lent is lent when it is read.
fn is_held_lent(alloc: Global, tree: &Frozen) -> Result<bool, AllocError> {
    let mut items = Items::new(alloc);
    items.push(Operand::lent(tree.item()))?;
    is_first_lent(Group::Values(items.as_slice()))
}

/// Whether an item of a list that is lent is lent.
fn is_part_lent(tree: &Frozen) -> Result<bool, AllocError> {
    match Operand::lent(tree.item()).lent_seen() {
        Some(Seen::List(group)) => is_first_lent(group),
        _ => Ok(false),
    }
}

#[test]
fn lists_give_what_is_lent_as_lent(rt: HostRuntime) -> Result<(), AllocError> {
    let tree = listed(rt.alloc())?;
    assert!(rt; is_held_lent(rt.alloc(), &tree)?);
    assert!(rt; is_part_lent(&tree)?);
    Ok(())
}

/// Whether a key of a dict of a heap is lent when it is walked.
fn is_key_lent(alloc: Global, key: MaybeLent<'_, Key>) -> Result<bool, AllocError> {
    let mut entries = Entries::with_capacity(alloc, 1)?;
    entries.put(key, Operand::own(Value::Cell(0)))?;
    if entries.len() == 0 {
        return Ok(false);
    }
    Ok(entries.key_at(0)?.lent_seen().is_some())
}

#[test]
fn dicts_give_keys_that_are_lent_as_lent(rt: HostRuntime) -> Result<(), AllocError> {
    let key = Key::Number(9);
    assert!(rt; is_key_lent(rt.alloc(), MaybeLent::lent(&key))?);
    assert!(rt; !is_key_lent(rt.alloc(), MaybeLent::own(Key::Number(9)))?);
    Ok(())
}

/// Whether a value of one's own is seen no longer than it is there.
fn is_own(operand: &Operand<'_>) -> bool {
    operand.lent_seen().is_none()
}

#[test]
fn what_is_own_is_kept(rt: HostRuntime) {
    assert!(rt; is_own(&Operand::own(Value::Key(Key::Number(7)))));
    assert!(rt; is_own(&Operand::own(Value::Cell(0))));
}
