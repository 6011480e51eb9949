//! Sums, arithmetic and order.
ghost use Rattle.std.specs.Prelude.{◌≡◌, ◌++◌, Ok, Err, Some, None, MatchOption, MatchResult, IfOk};
ghost use Rattle.std.specs.Prelude.{IfSome};
ghost use Rattle.ticks.specs.Ticking.{FaultOr};
ghost use Rattle.values.specs.Shape.{shape};
ghost use Rattle.values.specs.Seeing.{seen, item_value, group_items};
ghost use Rattle.printing.specs.Repr.{fits};
ghost use Rattle.operations.specs.States.{Does, DoesKind, Gives, GivesKind};
ghost use Rattle.operations.specs.Changes.{extension, extended};
ghost use Rattle.heap.specs.Cells.{joined_items};
ghost use Rattle.operations.specs.Operators.{new_number, key_sum, plus, add_in_place};
ghost use Rattle.operations.specs.Operators.{calculated, calculate, number_value};
ghost use Rattle.operations.specs.Operators.{negative, key_order, order_in, compare};
ghost use Rattle.state.specs.Sizes.{sum_within};

use crate::changes::{copied, copy_into};
use crate::making::place;
use crate::reading::number_of;
use crate::rooms::room;
use arrayvec::ArrayString;
use heap::Heap;
use numbers::{Comparison, NumberError, difference, opposite, product, quotient, remainder, sum};
use operands::Operand;
use operations::{Arithmetic, Made, State};
use plain::Text;
use printing::LARGEST_TEXT;
use std::alloc::{AllocError, Global};
use std::cmp::Ordering;
use values::{Broken, Group, Item, Items, Key, Kind, LARGEST, Seen, Value};

/// `a + b`: two whole numbers, two strings, two lists, or two tuples.
///
/// # Errors
///
/// `type` for all else; then `overflow` or `large`. `NoMemory` where memory was refused.
#[inline(always)]
pub fn plus<'a>(
    alloc: Global,
    state: &mut State<'a>,
    a: &Operand<'a>,
    b: &Operand<'a>,
) -> Result<Value, Broken>
    ensures { Does (plus a.now b.now) state.old result state.new }
{
    match added_in(alloc, &state.heap, a, b) {
        Ok(made) => place(state, made),
        Err(broken) => Err(broken),
    }
}

/// What two values of a heap add up to, or `large`.
#[inline(always)]
fn added_in<'a>(
    alloc: Global,
    heap: &Heap<'a>,
    a: &Operand<'a>,
    b: &Operand<'a>,
) -> Result<Made<'a>, Broken>
    ensures { Gives (sum_within (shape heap.now a.now) (shape heap.now b.now)) result }
{
    added(alloc, &heap.see(a), &heap.see(b))
}

/// What two values add up to, or `large`.
#[inline(always)]
fn added<'a>(alloc: Global, a: &Seen<'_, 'a>, b: &Seen<'_, 'a>) -> Result<Made<'a>, Broken>
    ensures { Gives (sum_within (seen a.now) (seen b.now)) result }
{
    match (a, b) {
        (Seen::Key(x), Seen::Key(y)) => key_sum(alloc, x, y),
        (Seen::List(xs), Seen::List(ys)) => Ok(Made::List(both(alloc, *xs, *ys)?)),
        (Seen::Tuple(xs), Seen::Tuple(ys)) => Ok(Made::Tuple(both(alloc, *xs, *ys)?)),
        _ => Err(Broken::Kind(Kind::Wrong)),
    }
}

/// What two numbers or two strings add up to.
#[inline(always)]
fn key_sum<'a>(alloc: Global, a: &Key, b: &Key) -> Result<Made<'a>, Broken>
    ensures { Gives (key_sum a.now b.now) result }
{
    match (a, b) {
        (Key::Number(x), Key::Number(y)) => new_number(sum(*x, *y)),
        (Key::Text(x), Key::Text(y)) => Ok(Made::Key(Key::Text(behind(alloc, x, y)?))),
        _ => Err(Broken::Kind(Kind::Wrong)),
    }
}

/// A number that was made, or its fault.
#[inline(always)]
fn new_number<'a>(number: Result<i64, NumberError>) -> Result<Made<'a>, Broken>
    ensures { Gives (new_number number) result }
{
    match number {
        Ok(number) => Ok(Made::Key(Key::Number(number))),
        Err(NumberError::Overflow) => Err(Broken::Kind(Kind::Overflow)),
        Err(NumberError::Zero) => Err(Broken::Kind(Kind::Zero)),
    }
}

/// A text behind another, or `large`.
fn behind(alloc: Global, a: &Text, b: &Text) -> Result<Text, Broken>
    ensures { Gives (fits (a.now ++ b.now)) result }
{
    if a.len().saturating_add(b.len()) > LARGEST_TEXT {
        return Err(Broken::Kind(Kind::Large));
    }
    let text = glued(alloc, a, b)?;
    Ok(text)
}

/// A text behind another.
fn glued(alloc: Global, a: &Text, b: &Text) -> Result<Text, AllocError>
    ensures { IfOk result (λ t. t ≡ a.now ++ b.now) }
{
    if let Some(text) = glued_in_place(a.as_str(), b.as_str()) {
        return Text::new(alloc, text.as_str());
    }
    let mut text = String::with_capacity(alloc, a.len().saturating_add(b.len()))?;
    text.push_str(a.as_str())?;
    text.push_str(b.as_str())?;
    Text::from_string(text)
}

/// The bytes of a text behind another, where they are so few that a `Text` holds them in place.
fn glued_in_place(a: &str, b: &str) -> Option<ArrayString<32>>
    ensures { IfSome result (λ t. t.bytes ≡ a.now ++ b.now) }
{
    let mut text = ArrayString::from(a).ok()?;
    text.try_push_str(b).ok()?;
    Some(text)
}

/// The items of two groups, one behind the other, or `large`, which is known before any is copied.
fn both<'a>(alloc: Global, xs: Group<'_, 'a>, ys: Group<'_, 'a>) -> Result<Items<'a>, Broken>
    ensures { Gives (joined_items (group_items ys.entry) (group_items xs.entry)) result }
{
    if xs.len().saturating_add(ys.len()) > LARGEST {
        return Err(Broken::Kind(Kind::Large));
    }
    let items = both_copied(alloc, xs, ys)?;
    Ok(items)
}

/// The items of two groups, one behind the other.
fn both_copied<'a>(
    alloc: Global,
    xs: Group<'_, 'a>,
    ys: Group<'_, 'a>,
) -> Result<Items<'a>, AllocError>
    ensures { IfOk result (λ items. items ≡ group_items xs.entry ++ group_items ys.entry) }
{
    let mut items = Items::with_capacity(alloc, xs.len().saturating_add(ys.len()))?;
    copy_into(xs, &mut items)?;
    copy_into(ys, &mut items)?;
    Ok(items)
}

/// `x += y`: a list is extended in place by a list or a tuple, and is given itself; all else is
/// `x + y`, which only reads `x`: one that is lent isn't counted.
///
/// # Errors
///
/// Of a list that is extended by a list or a tuple, the first of `frozen`, `iterating` and `large`;
/// of all else the fault of `x + y`. `NoMemory` where memory was refused.
pub fn add_in_place<'a>(
    alloc: Global,
    state: &mut State<'a>,
    x: Operand<'a>,
    y: &Operand<'a>,
) -> Result<Value, Broken>
    ensures { Does (add_in_place x.entry y.now) state.old result state.new }
{
    match extension_in(alloc, state, x.item(), y) {
        Ok(Some(items)) => extended(state, x, items),
        Ok(None) => plus(alloc, state, &x, y),
        Err(broken) => Err(broken),
    }
}

/// What `x += y` extends `x` by, None where that is the sum. A list that can't be extended by so
/// many items refuses them before any is copied.
fn extension_in<'a>(
    alloc: Global,
    state: &State<'a>,
    x: Item<'_>,
    y: &Operand<'a>,
) -> Result<Option<Items<'a>>, Broken>
    ensures { MatchResult result (λ r. r ≡ extension (shape state.now.heap (item_value x.entry))
        (shape state.now.heap y.now))
        (λ e. FaultOr (add_in_place (item_value x.entry) y.now state.now) e) }
{
    let Some(more) = extension(&state.heap.see_item(x), &state.heap.see(y)) else {
        return Ok(None);
    };
    room(&state.heap, x, more)?;
    let items = copied(alloc, more)?;
    Ok(Some(items))
}

/// What a list is extended by: the items of a list or of a tuple.
fn extension<'b, 'a>(x: &Seen<'_, '_>, y: &Seen<'b, 'a>) -> Option<Group<'b, 'a>>
    ensures { MatchOption result (extension (seen x.now) (seen y.now) ≡ None)
        (λ g. extension (seen x.now) (seen y.now) ≡ Some (group_items g)) }
{
    match (x, y) {
        (Seen::List(_), Seen::List(items)) => Some(*items),
        (Seen::List(_), Seen::Tuple(items)) => Some(*items),
        _ => None,
    }
}

/// The list itself, with these items more.
fn extended<'a>(state: &mut State<'a>, list: Operand<'a>, items: Items<'a>) -> Result<Value, Broken>
    ensures { Does (extended items.entry list.entry) state.old result state.new }
{
    let list = list.into_value()?;
    state.heap.extend(&list, items)?;
    Ok(list)
}

/// `a - b`, `a * b`, `a // b` or `a % b`, of two whole numbers.
///
/// # Errors
///
/// `type` for all else; `zero`, and then `overflow`.
#[inline(always)]
pub fn calculate(
    state: &State,
    operator: Arithmetic,
    a: Item<'_>,
    b: Item<'_>,
) -> Result<Value, Kind>
    ensures { DoesKind (calculate operator (item_value a.entry) (item_value b.entry)) state.now
        result state.now }
{
    let Some(x) = number_of(&state.heap.see_item(a)) else {
        return Err(Kind::Wrong);
    };
    let Some(y) = number_of(&state.heap.see_item(b)) else {
        return Err(Kind::Wrong);
    };
    number_value(calculated(operator, x, y))
}

/// What an operator makes of two numbers.
#[inline(always)]
fn calculated(operator: Arithmetic, a: i64, b: i64) -> Result<i64, NumberError>
    ensures { result ≡ calculated operator a b }
{
    match operator {
        Arithmetic::Minus => difference(a, b),
        Arithmetic::Times => product(a, b),
        Arithmetic::FloorDiv => quotient(a, b),
        Arithmetic::Modulo => remainder(a, b),
    }
}

/// A number as a value, or its fault.
#[inline(always)]
fn number_value(number: Result<i64, NumberError>) -> Result<Value, Kind>
    ensures { GivesKind (number_value number) result }
{
    match number {
        Ok(number) => Ok(Value::Key(Key::Number(number))),
        Err(NumberError::Overflow) => Err(Kind::Overflow),
        Err(NumberError::Zero) => Err(Kind::Zero),
    }
}

/// `-a`, of a whole number.
///
/// # Errors
///
/// `type` for all else; `overflow`.
pub fn negate(state: &State, a: Item<'_>) -> Result<Value, Kind>
    ensures { DoesKind (negative (item_value a.entry)) state.now result state.now }
{
    let Some(number) = number_of(&state.heap.see_item(a)) else {
        return Err(Kind::Wrong);
    };
    number_value(opposite(number))
}

/// `a < b` and its like, of two whole numbers, or of two strings by their bytes.
///
/// # Errors
///
/// `type` for all else.
#[inline(always)]
pub fn compare(state: &State, operator: Comparison, a: Item<'_>, b: Item<'_>) -> Result<bool, Kind>
    ensures { DoesKind (compare operator (item_value a.entry) (item_value b.entry)) state.now result
        state.now }
{
    let order = order_of(&state.heap.see_item(a), &state.heap.see_item(b))?;
    Ok(operator.holds(order))
}

/// The order of two values.
#[inline(always)]
fn order_of(a: &Seen<'_, '_>, b: &Seen<'_, '_>) -> Result<Ordering, Kind>
    ensures { GivesKind (order_in (seen a.now) (seen b.now)) result }
{
    match (a, b) {
        (Seen::Key(x), Seen::Key(y)) => key_order(x, y),
        _ => Err(Kind::Wrong),
    }
}

/// The order of two numbers or of two strings.
#[inline(always)]
fn key_order(a: &Key, b: &Key) -> Result<Ordering, Kind>
    ensures { GivesKind (key_order a.now b.now) result }
{
    match (a, b) {
        (Key::Number(x), Key::Number(y)) => Ok(numbers::compare(*x, *y)),
        (Key::Text(x), Key::Text(y)) => Ok(x.cmp(y)),
        _ => Err(Kind::Wrong),
    }
}
