//! What `to_list()` lists is lent, and counts nothing: no clause says so.
use crate::lent::is_first_lent;
use crate::made_depsets::made;
use depsets::Depset;
use heap::Heap;
use keys::TextKey;
use making::to_list;
use operands::{Bindings, Operand};
use operations::{Defaults, State};
use plain::{Shared, Text};
use std::alloc::{AllocError, Global};
use values::{Broken, Element, Fields, FileRef, Seen, Ticks};

/// A state without cells.
fn empty<'a>(alloc: Global) -> Result<State<'a>, AllocError> {
    Ok(State {
        heap: Heap::new(alloc),
        ticks: Ticks::new(1000),
        owner: Text::new(alloc, "a/f.bzl")?,
        depsets: 0,
        file: 0,
        globals: Fields::with_capacity(alloc, 0)?,
        loaded: Bindings::unbound(alloc, 0)?,
        defaults: Defaults::new(alloc),
    })
}

/// Whether `to_list()` of a depset lends the first element.
fn is_listed_lent(alloc: Global, depset: &Depset) -> Result<bool, Broken> {
    let mut state = empty(alloc)?;
    let list = Operand::own(to_list(alloc, &mut state, depset)?);
    match state.heap.see(&list) {
        Seen::List(group) => Ok(is_first_lent(group)?),
        _ => Ok(false),
    }
}

/// A string, a label and a File, as elements.
fn string(alloc: Global) -> Result<Element, AllocError> {
    Ok(Element::Text(TextKey::new(Text::new(alloc, "x")?)))
}

fn label(alloc: Global) -> Result<Element, AllocError> {
    Ok(Element::Label(Text::new(alloc, "//a:x")?))
}

fn file(alloc: Global) -> Result<Element, AllocError> {
    let file = FileRef::new(Text::new(alloc, "a/x")?, Text::new(alloc, "//a:x")?);
    Ok(Element::File(Shared::new(alloc, file)?))
}

/// One element.
fn one(alloc: Global, element: Element) -> Result<Vec<Element>, AllocError> {
    let elements = Vec::from_array(alloc, [element])?;
    Ok(elements)
}

/// Whether `to_list()` of a depset of one element lends it.
fn is_element_lent(alloc: Global, element: Element) -> Result<bool, Broken> {
    match made(alloc, 1, one(alloc, element)?, Vec::new(alloc)) {
        Some(depset) => is_listed_lent(alloc, &depset),
        None => Ok(false),
    }
}

#[test]
fn to_list_lends_the_elements(rt: HostRuntime) -> Result<(), Broken> {
    let alloc = rt.alloc();
    assert!(rt; is_element_lent(alloc, string(alloc)?)?);
    assert!(rt; is_element_lent(alloc, label(alloc)?)?);
    assert!(rt; is_element_lent(alloc, file(alloc)?)?);
    Ok(())
}
