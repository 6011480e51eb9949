//! The call of `depset`: its parts, and the depset with the next serial of the owner.
ghost use Rattle.std.specs.Prelude.{◌≡◌, Ok, Err, Some, None, MatchResult, option_copied};
ghost use Rattle.ticks.specs.Ticking.{FaultOr};
ghost use Rattle.values.specs.Seeing.{seen};
ghost use Rattle.operations.specs.Reading.{depset_in};
ghost use Rattle.operations.specs.States.{Does, Gives};
ghost use Rattle.printing.specs.Repr.{string_in};
ghost use Rattle.operations.specs.Depsets.{new_depset, order_named, order_text, order_in, parts_in};
ghost use Rattle.operations.specs.Depsets.{element_in, parts_of, depset_of};

use crate::parts::{children, elements};
use heap::Heap;
use operands::Operand;
use operations::State;
use std::alloc::Global;
use values::{Broken, Depset, DepsetError, Element, Id, Key, Kind, Leaf, Order, Seen, Value};

/// A depset of these parts, with the next serial of the owner.
///
/// # Errors
///
/// `type` for elements of two types; then `order`, `deep`, and `large` where no serial is left.
/// `NoMemory` where memory was refused.
pub fn new_depset(
    alloc: Global,
    state: &mut State,
    order: Order,
    direct: Vec<Element>,
    children: Vec<Depset>,
) -> Result<Value, Broken>
    ensures { Does (new_depset order direct.items children.items) state.old result state.new }
{
    let serial = state.depsets.checked_add(1);
    let id = Id {
        owner: state.owner.share()?,
        serial: serial.unwrap_or(0),
    };
    match Depset::new(alloc, id, order, direct, children) {
        Ok(depset) => match serial {
            Some(serial) => {
                state.depsets = serial;
                Ok(Value::Leaf(Leaf::Depset(depset)))
            }
            None => Err(Broken::Kind(Kind::Large)),
        },
        Err(DepsetError::Mixed) => Err(Broken::Kind(Kind::Wrong)),
        Err(DepsetError::Order) => Err(Broken::Kind(Kind::Order)),
        Err(DepsetError::Deep) => Err(Broken::Kind(Kind::Deep)),
        Err(DepsetError::NoMemory) => Err(Broken::NoMemory),
    }
}

/// The order that a text names.
fn order_named(text: &str) -> Option<Order>
    ensures { result ≡ order_named text.now }
{
    match text {
        "default" => Some(Order::Default),
        "postorder" => Some(Order::Postorder),
        "preorder" => Some(Order::Preorder),
        _ => None,
    }
}

/// The order that a value names.
fn order_of(value: &Seen<'_, '_>) -> Option<Order>
    ensures { result ≡ order_text (string_in (seen value.now)) }
{
    match value {
        Seen::Key(Key::Text(text)) => order_named(text.as_str()),
        _ => None,
    }
}

/// The order that an argument names; the default where there is none.
fn order_in(heap: &Heap, order: Option<&Operand<'_>>) -> Result<Order, Broken>
    ensures { Gives (order_in heap.now (option_copied order.entry)) result }
{
    let Some(order) = order else {
        return Ok(Order::Default);
    };
    match order_of(&heap.see_item(order.item())) {
        Some(order) => Ok(order),
        None => Err(Broken::Kind(Kind::Wrong)),
    }
}

/// The elements of an argument, none where there is none.
fn elements_in(
    alloc: Global,
    heap: &Heap,
    direct: Option<&Operand<'_>>,
) -> Result<Vec<Element>, Broken>
    ensures { MatchResult result (λ v. parts_in element_in heap.now (option_copied direct.entry)
        ≡ Ok v.items) (λ e. FaultOr (parts_in element_in heap.now (option_copied direct.entry)) e) }
{
    let Some(direct) = direct else {
        return Ok(Vec::new(alloc));
    };
    match heap.see_item(direct.item()) {
        Seen::List(items) => elements(alloc, items, heap),
        Seen::Tuple(items) => elements(alloc, items, heap),
        _ => Err(Broken::Kind(Kind::Wrong)),
    }
}

/// The depsets of an argument, none where there is none.
fn children_in(
    alloc: Global,
    heap: &Heap,
    transitive: Option<&Operand<'_>>,
) -> Result<Vec<Depset>, Broken>
    ensures { MatchResult result (λ v. parts_in depset_in heap.now (option_copied transitive.entry)
        ≡ Ok v.items) (λ e. FaultOr (parts_in depset_in heap.now (option_copied transitive.entry))
        e) }
{
    let Some(transitive) = transitive else {
        return Ok(Vec::new(alloc));
    };
    match heap.see_item(transitive.item()) {
        Seen::List(items) => children(alloc, items, heap),
        Seen::Tuple(items) => children(alloc, items, heap),
        _ => Err(Broken::Kind(Kind::Wrong)),
    }
}

/// What `depset` is made of.
#[derive(Drop)]
struct Parts {
    direct: Vec<Element>,
    order: Order,
    transitive: Vec<Depset>,
}

/// The parts that the arguments of `depset` are, or `type`.
fn read_parts(
    alloc: Global,
    heap: &Heap,
    direct: Option<&Operand<'_>>,
    order: Option<&Operand<'_>>,
    transitive: Option<&Operand<'_>>,
) -> Result<Parts, Broken>
    ensures { MatchResult result (λ p. parts_of heap.now (option_copied direct.entry)
        (option_copied order.entry) (option_copied transitive.entry)
        ≡ Ok (record { direct = p.direct.items; order = p.order; transitive = p.transitive.items }))
        (λ e. FaultOr (parts_of heap.now (option_copied direct.entry) (option_copied order.entry)
        (option_copied transitive.entry)) e) }
{
    let direct = elements_in(alloc, heap, direct)?;
    let order = order_in(heap, order)?;
    let transitive = children_in(alloc, heap, transitive)?;
    Ok(Parts {
        direct,
        order,
        transitive,
    })
}

/// `depset(direct, order, transitive = transitive)`, of the arguments that were given.
///
/// # Errors
///
/// `type` for an argument, an element, elements of two types, or an order that isn't one; then
/// `order`, `deep`, and `large` where no serial is left. `NoMemory` where memory was refused.
pub fn depset(
    alloc: Global,
    state: &mut State,
    direct: Option<&Operand<'_>>,
    order: Option<&Operand<'_>>,
    transitive: Option<&Operand<'_>>,
) -> Result<Value, Broken>
    ensures { Does (depset_of (option_copied direct.entry) (option_copied order.entry)
        (option_copied transitive.entry)) state.old result state.new }
{
    match read_parts(alloc, &state.heap, direct, order, transitive) {
        Ok(made) => new_depset(alloc, state, made.order, made.direct, made.transitive),
        Err(broken) => Err(broken),
    }
}
