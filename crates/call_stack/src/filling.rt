//! What the parameters of a function get.

ghost use Rattle.std.specs.Prelude.{◌≡◌, ◌≤◌, ◌++◌, [], None, Some, length, drop, map, replicate};
ghost use Rattle.std.specs.Prelude.{slice_get, option_copied, option_map, bytes_eq, IfOk};
ghost use Rattle.std.specs.Map.{lookup};
ghost use Rattle.meaning.specs.Entry.{all_known, defaults_of, entry, filled, paired};
ghost use Rattle.frames.specs.Answers.{given};
ghost use Rattle.operands.specs.Lying.{stored_value};
ghost use Rattle.frames.specs.Kept.{defaults_seen};
ghost use Rattle.call_stack.specs.Filled.{behind, default_at, fitting, got, rest_filled, top_of};

use first_places::{FirstPlaces, are_among};
use frames::{Defaults, Slots, Stack};
use operands::{Operand, Stored};
use plain::Text;
use std::alloc::{AllocError, Global};

/// The value of an argument by its name, if there is one of this name.
fn named_value<'a, 'b>(
    param: &Text,
    names: &FirstPlaces<'_>,
    named: &'b [Operand<'a>],
) -> Option<&'b Operand<'a>>
    ensures { option_copied result ≡ lookup (bytes_eq param.now) (paired names.now named.now) }
{
    match names.get(param.as_str()) {
        Some(index) => value_at(named, index),
        None => None,
    }
}

/// Whether each argument by name is one of a parameter.
fn are_known(
    alloc: Global,
    params: &[Text],
    names: &[Text],
    named: &[Operand<'_>],
) -> Result<bool, AllocError>
    ensures { IfOk result (λ b. b ≡ all_known params.now (paired names.now named.now)) }
{
    let count = names.len().min(named.len());
    let known = are_among(alloc, &names[..count], params)?;
    Ok(known)
}

/// What one parameter gets, if it gets something.
fn given_to<'a>(
    param: &Text,
    item: Option<Operand<'a>>,
    names: &FirstPlaces<'_>,
    named: &[Operand<'a>],
    default: Option<Stored<'a, '_>>,
) -> Result<Option<Operand<'a>>, AllocError>
    ensures { IfOk result (λ o. o ≡ got param.now item.entry (paired names.now named.now)
        (option_map stored_value default.entry)) }
{
    let by_name = named_value(param, names, named);
    match item {
        Some(value) => match by_name {
            Some(_) => Ok(None),
            None => Ok(Some(value)),
        },
        None => match by_name {
            Some(value) => Ok(Some(value.share()?)),
            None => match default {
                Some(value) => Ok(Some(value.operand()?)),
                None => Ok(None),
            },
        },
    }
}

/// The value at a place.
fn value_at<T>(values: &[T], index: usize) -> Option<&T>
    ensures { option_copied result ≡ slice_get values.now index }
{
    values.get(index)
}

/// The default of a parameter by its place, where so many parameters have none.
fn default_of<'a, 'b>(
    defaults: Defaults<'a, 'b>,
    without: usize,
    index: usize,
) -> Option<Stored<'a, 'b>>
    ensures { option_map stored_value result
        ≡ default_at without index (defaults_seen defaults.entry) }
{
    if index < without {
        None
    } else {
        defaults.get(index - without)
    }
}

/// What the parameters get, in their order, in slots that have none yet; whether the arguments fit
/// them.
fn fill<'a>(
    slots: &mut Slots<'a>,
    params: &[Text],
    defaults: Defaults<'a, '_>,
    items: &mut Stack<Operand<'a>>,
    names: &FirstPlaces<'_>,
    named: &[Operand<'a>],
) -> Result<bool, AllocError>
    requires { slots.old ≡ [] }
    ensures { IfOk result (λ fits. fitting fits slots.new
        ≡ filled params.now items.old (paired names.now named.now)
        (defaults_of params.now (defaults_seen defaults.entry))) }
{
    let without = params.len().saturating_sub(defaults.len());
    for (index, param) in params.iter().enumerate() {
        let default = default_of(defaults, without, index);
        match given_to(param, items.pop(), names, named, default)? {
            Some(value) => slots.push(Some(value))?,
            None => return Ok(false),
        }
    }
    if items.len() > 0 {
        return Ok(false);
    }
    Ok(true)
}

/// So many slots more, in which nothing is set.
pub(crate) fn pad(slots: &mut Slots<'_>, count: usize) -> Result<(), AllocError>
    ensures { IfOk result (λ _. slots.new ≡ slots.old ++ replicate count None) }
{
    for _ in 0..count {
        slots.push(None)?;
    }
    Ok(())
}

/// So many values off the top of a stack, in which they are, into slots that have none yet: the
/// topmost one is in the last of them.
#[inline(always)]
pub(crate) fn fill_from_top<'a>(
    slots: &mut Slots<'a>,
    count: usize,
    values: &mut Stack<Operand<'a>>,
) -> Result<(), AllocError>
    requires none { slots.old ≡ [] }
    requires there { count ≤ length values.old }
    ensures filled { IfOk result (λ _. slots.new ≡ map Some (top_of count [] values.old)) }
    ensures left { IfOk result (λ _. values.new ≡ drop count values.old) }
{
    pad(slots, count)?;
    let mut left = count;
    while left > 0 {
        left -= 1;
        slots.put(left, values.pop())?;
    }
    Ok(())
}

/// What a parameter gets by default, where so many parameters have no default.
fn given_by_default<'a>(
    defaults: Defaults<'a, '_>,
    without: usize,
    index: usize,
) -> Result<Option<Operand<'a>>, AllocError>
    ensures { IfOk result (λ o. o ≡ default_at without index (defaults_seen defaults.entry)) }
{
    match default_of(defaults, without, index) {
        Some(value) => Ok(Some(value.operand()?)),
        None => Ok(None),
    }
}

/// The parameters that have no slots yet get their defaults, as they have no arguments; whether
/// each of them has one.
pub(crate) fn fill_defaults<'a>(
    slots: &mut Slots<'a>,
    params: &[Text],
    defaults: Defaults<'a, '_>,
) -> Result<bool, AllocError>
    ensures { IfOk result (λ fits. fitting fits slots.new ≡ behind slots.old
        (rest_filled params.now (length slots.old) (defaults_seen defaults.entry))) }
{
    let without = params.len().saturating_sub(defaults.len());
    for index in slots.len()..params.len() {
        match given_by_default(defaults, without, index)? {
            Some(value) => slots.push(Some(value))?,
            None => return Ok(false),
        }
    }
    Ok(true)
}

/// As many slots, in which nothing is set.
///
/// # Errors
///
/// Memory was refused.
pub fn unset<'a>(alloc: Global, count: usize) -> Result<Slots<'a>, AllocError>
    ensures { IfOk result (λ slots. slots ≡ replicate count None) }
{
    let mut slots = Slots::new(alloc);
    slots.reserve(count)?;
    pad(&mut slots, count)?;
    Ok(slots)
}

/// The slots at the entry of a function, in the memory of these; whether the arguments fit its
/// parameters.
#[tactic(auto, unfolding(meaning::specs::Entry::entry))]
pub(crate) fn slots_at_entry<'a>(
    alloc: Global,
    slots: &mut Slots<'a>,
    params: &[Text],
    count: usize,
    defaults: Defaults<'a, '_>,
    items: &mut Stack<Operand<'a>>,
    names: &[Text],
    named: Stack<Operand<'a>>,
) -> Result<bool, AllocError>
    ensures { IfOk result (λ fits. fitting fits slots.new ≡ entry params.now count
        (defaults_seen defaults.entry) (given items.old names.now named.entry)) }
{
    let named = named.into_vec();
    if !are_known(alloc, params, names, named.as_slice())? {
        return Ok(false);
    }
    let names = FirstPlaces::new(alloc, names)?;
    slots.let_go();
    slots.reserve(count)?;
    if !fill(slots, params, defaults, items, &names, named.as_slice())? {
        return Ok(false);
    }
    pad(slots, count.saturating_sub(params.len()))?;
    Ok(true)
}
