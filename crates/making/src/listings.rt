//! The listing of a depset, as a list of the language.
ghost use Rattle.std.specs.Prelude.{◌≡◌, ◌++◌, ◌∷◌, [], Ok, IfOk, OnOk, map};
ghost use Rattle.depsets.specs.Listed.{IsCoherent, walked, flat};
ghost use Rattle.operations.specs.States.{Does};
ghost use Rattle.operations.specs.Making.{new_list};
ghost use Rattle.operations.specs.Depsets.{element_value, to_list};

use depsets::Elements;
use operands::Operand;
use operations::State;
use std::alloc::{AllocError, Global};
use values::{Broken, Depset, Element, Items, Key, LeafRef, Value};

/// A new list of the listing, or `large`. The walk visits no id twice; of a coherent depset it
/// gives the plain listing. The strings, labels and Files of the list are lent by the depset.
///
/// # Errors
///
/// `large` where the list would be too large, and `NoMemory` where memory was refused.
pub fn to_list<'a>(
    alloc: Global,
    state: &mut State<'a>,
    depset: &'a Depset,
) -> Result<Value, Broken>
    ensures list { Does (to_list depset.now) state.old result state.new }
    ensures plain { IsCoherent depset.now
        → Does (new_list (map element_value (flat depset.now))) state.old result state.new }
{
    let items = listing(alloc, depset)?;
    state.heap.new_list(items)
}

/// The elements of the listing as values.
fn listing<'a>(alloc: Global, depset: &'a Depset) -> Result<Items<'a>, AllocError>
    ensures walk { IfOk result (λ items. items ≡ map element_value (walked depset.now)) }
    ensures plain { IfOk result (λ items. IsCoherent depset.now
        → items ≡ map element_value (flat depset.now)) }
{
    let listing = depset.list_whole(alloc)?;
    element_values(alloc, &listing.items)
}

/// Elements as values.
fn element_values<'a>(alloc: Global, elements: &Elements<'a>) -> Result<Items<'a>, AllocError>
    ensures { IfOk result (λ items. items ≡ map element_value elements.now) }
{
    let mut items = Items::with_capacity(alloc, elements.len())?;
    for element in elements {
        put_element(element, &mut items)?;
    }
    Ok(items)
}

/// Puts an element last, as a value.
fn put_element<'a>(element: &'a Element, items: &mut Items<'a>) -> Result<(), AllocError>
    ensures { OnOk result (items.new ≡ items.old ++ element_value element.now ∷ []) }
{
    items.push(element_value(element))?;
    Ok(())
}

/// An element as a value: what is behind a count is lent.
fn element_value<'a>(element: &'a Element) -> Operand<'a>
    ensures { result ≡ element_value element.now }
{
    match element {
        Element::Text(text) => Operand::lent_key(text.key()),
        Element::Number(number) => Operand::own(Value::Key(Key::Number(*number))),
        Element::Truth(truth) => Operand::own(Value::Key(Key::Truth(*truth))),
        Element::Label(label) => Operand::lent_leaf(LeafRef::Label(label)),
        Element::File(file) => Operand::lent_leaf(LeafRef::File(file)),
    }
}
