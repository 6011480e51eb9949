//! Changes of lists and dicts. Each is refused by the first of `type`, `frozen`, `iterating`,
//! `index` and `large`.
ghost use Rattle.std.specs.Prelude.{◌≡◌, ◌++◌, List, Ok, Err, Some, None, MatchResult, IfOk, OnOk};
ghost use Rattle.ticks.specs.Ticking.{FaultOr};
ghost use Rattle.heap.specs.Cells.{list_changed, dict_changed, indexed, keyed};
ghost use Rattle.values.specs.Shape.{shape};
ghost use Rattle.values.specs.declared.cells.Cell.{Cell as Kept};
ghost use Rattle.values.specs.Seeing.{item_value, group_items};
ghost use Rattle.operations.specs.States.{Does, changed};
ghost use Rattle.operations.specs.Reading.{number_in, key_in, sequence_in, of_type};
ghost use Rattle.operations.specs.Changes.{append, extend, set_item};

use crate::reading::{number_of, sequence_of};
use crate::rooms::room;
use operands::Operand;
use operations::State;
use std::alloc::{AllocError, Global};
use values::{Broken, Group, Item, Items, Key, Kind, Leaf, MaybeLent, Seen, Value};

/// `list.append(item)`.
///
/// # Errors
///
/// The first of `type`, `frozen`, `iterating` and `large`; `NoMemory` where memory was refused.
pub fn append<'a>(state: &mut State<'a>, list: &Value, item: Operand<'a>) -> Result<Value, Broken>
    ensures { Does (append list.now item.entry) state.old result state.new }
{
    state.heap.append(list, item)?;
    Ok(Value::Leaf(Leaf::None))
}

/// `list.extend(sequence)`, by the items that it has now. A list that can't be extended by so many
/// refuses them before any is copied.
///
/// # Errors
///
/// `type` where the sequence is no list or tuple; then the first of `type`, `frozen`, `iterating`
/// and `large`, of the list; `NoMemory` where memory was refused.
pub fn extend<'a>(
    alloc: Global,
    state: &mut State<'a>,
    list: &Value,
    sequence: &Operand<'a>,
) -> Result<Value, Broken>
    ensures { Does (extend list.now sequence.now) state.old result state.new }
{
    let items = more_of(alloc, state, list, sequence)?;
    state.heap.extend(list, items)?;
    Ok(Value::Leaf(Leaf::None))
}

/// The items that `list.extend(sequence)` adds, or why it adds none.
fn more_of<'a>(
    alloc: Global,
    state: &State<'a>,
    list: &Value,
    sequence: &Operand<'a>,
) -> Result<Items<'a>, Broken>
    ensures { MatchResult result
        (λ items. sequence_in (shape state.now.heap sequence.now) ≡ Some items)
        (λ e. FaultOr (extend list.now sequence.now state.now) e) }
{
    let Some(items) = sequence_of(&state.heap.see(sequence)) else {
        return Err(Broken::Kind(Kind::Wrong));
    };
    room(&state.heap, list.item(), items)?;
    let items = copied(alloc, items)?;
    Ok(items)
}

/// The items of a group.
///
/// # Errors
///
/// `AllocError` where memory was refused.
pub fn copied<'a>(alloc: Global, group: Group<'_, 'a>) -> Result<Items<'a>, AllocError>
    ensures { IfOk result (λ items. items ≡ group_items group.entry) }
{
    let mut items = Items::with_capacity(alloc, group.len())?;
    copy_into(group, &mut items)?;
    Ok(items)
}

/// Puts the items of a group behind others.
pub(crate) fn copy_into<'a>(group: Group<'_, 'a>, items: &mut Items<'a>) -> Result<(), AllocError>
    ensures { OnOk result (items.new ≡ items.old ++ group_items group.entry) }
{
    for place in 0..group.len() {
        items.push(group.operand(place)?)?;
    }
    Ok(())
}

/// `base[index] = value`.
///
/// # Errors
///
/// The first of `type`, `frozen` and `iterating`; then `index` where a list has no such item, and
/// `large` where a dict would have an entry too many; `NoMemory` where memory was refused.
pub fn set_item<'a>(
    state: &mut State<'a>,
    base: &Value,
    index: &Operand<'a>,
    value: Operand<'a>,
) -> Result<(), Broken>
    ensures { Does (set_item base.now index.now value.entry) state.old result state.new }
{
    match state.heap.see_item(base.item()) {
        Seen::List(_) => set_index(state, base, index.item(), value),
        Seen::Tuple(_) => set_index(state, base, index.item(), value),
        Seen::Dict(_) => set_key(state, base, index, value),
        _ => Err(Broken::Kind(Kind::Wrong)),
    }
}

/// `list[index] = value`.
fn set_index<'a>(
    state: &mut State<'a>,
    list: &Value,
    index: Item<'_>,
    value: Operand<'a>,
) -> Result<(), Broken>
    ensures { Does (λ s. changed tt s (of_type (number_in (shape s.heap (item_value index.entry)))
        (λ n. list_changed (indexed n value.entry) s.heap list.now))) state.old result state.new }
{
    match number_of(&state.heap.see_item(index)) {
        Some(number) => state.heap.set_index(list, number, value),
        None => Err(Broken::Kind(Kind::Wrong)),
    }
}

/// `dict[key] = value`: a key that is there keeps its place, and a new one that is lent is kept as
/// lent.
pub(crate) fn set_key<'a>(
    state: &mut State<'a>,
    dict: &Value,
    key: &Operand<'a>,
    value: Operand<'a>,
) -> Result<(), Broken>
    ensures { Does (λ s. changed tt s (of_type (key_in (shape s.heap key.now))
        (λ k. dict_changed (keyed k value.entry) s.heap dict.now))) state.old result state.new }
{
    let Some(key) = key_to_hold(key)? else {
        return Err(Broken::Kind(Kind::Wrong));
    };
    state.heap.set_key(dict, key, value)
}

/// The key that a value is, if it may be one, for what holds it.
#[tactic(auto, using(crate::proofs::KeyLemmas::key_shown))]
fn key_to_hold<'a>(key: &Operand<'a>) -> Result<Option<MaybeLent<'a, Key>>, AllocError>
    ensures { IfOk result (λ k. (h : List Kept) → k ≡ key_in (shape h key.now)) }
{
    key.key()
}
