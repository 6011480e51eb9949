//! Values off the top of a stack, in order.

ghost use Rattle.std.specs.Prelude.{◌≡◌, IfOk, Some, None, [], if◌then◌else◌, length, option_map};
ghost use Rattle.frames.specs.Popped.{popped};

use crate::stack::Stack;
use operands::Operand;
use std::alloc::{AllocError, Global};
use values::{Items, Key, Value};

/// So many values off the top of a stack, onto another: what was at the top is the lowest of them
/// there. Whether they were there.
///
/// # Errors
///
/// Memory was refused.
#[inline(always)]
pub fn take<'a>(
    count: usize,
    values: &mut Stack<Operand<'a>>,
    taken: &mut Stack<Operand<'a>>,
) -> Result<bool, AllocError>
    ensures { IfOk result (λ there. popped count taken.old values.old
        ≡ (if there then Some (taken.new, values.new) else None)) }
{
    for _ in 0..count {
        match values.pop() {
            Some(value) => taken.push(value)?,
            None => return Ok(false),
        }
    }
    Ok(true)
}

/// So many items, each of which is still to be set.
#[inline(always)]
fn unset_items<'a>(alloc: Global, count: usize) -> Result<Items<'a>, AllocError>
    ensures { IfOk result (λ items. length items ≡ count) }
{
    let mut items = Items::with_capacity(alloc, count)?;
    for _ in 0..count {
        items.push(Operand::own(Value::Key(Key::Number(0))))?;
    }
    Ok(items)
}

/// So many values off the top of a stack, as items of which the topmost value is the last, if they
/// are there.
///
/// # Errors
///
/// Memory was refused.
#[inline(always)]
pub fn take_items<'a>(
    alloc: Global,
    count: usize,
    values: &mut Stack<Operand<'a>>,
) -> Result<Option<Items<'a>>, AllocError>
    ensures { IfOk result (λ taken. popped count [] values.old
        ≡ option_map (λ items. (items, values.new)) taken) }
{
    if count > values.len() {
        return Ok(None);
    }
    let mut items = unset_items(alloc, count)?;
    for place in (0..count).rev() {
        match values.pop() {
            Some(value) => items.set(place, value),
            None => return Ok(None),
        }
    }
    Ok(Some(items))
}
