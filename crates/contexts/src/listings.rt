//! `ctx.files`: the listings of the targets of labels.
ghost use Rattle.std.specs.Prelude.{◌≡◌, ◌++◌, ◌∷◌, [], ◌<◌, Ok, Err, Some, None, MatchResult};
ghost use Rattle.std.specs.Prelude.{IfOk, OnOk, map, slice_get};
ghost use Rattle.depsets.specs.Listed.{walked};
ghost use Rattle.values.specs.Seeing.{item_value};
ghost use Rattle.ticks.specs.Ticking.{FaultOr};
ghost use Rattle.operations.specs.States.{Gives};
ghost use Rattle.contexts.specs.Fields.{attribute_labels, files_listed, files_or_name, frozen_list};
ghost use Rattle.contexts.specs.Fields.{listed_or_empty, listed_files, element_tree};
ghost use Rattle.contexts.specs.Fields.{unless_large};
ghost use Rattle.contexts.specs.Offered.{value_depset};

use crate::attributes::frozen_list;
use crate::dependencies::Dependencies;
use crate::files::{files_in, item_depset};
use depsets::{Depset, Element, Elements};
use plain::Shared;
use std::alloc::{AllocError, Global};
use targets::AttributeValue;
use values::{Broken, Frozen, Item, Key, Kind, LARGEST, Leaf, Value};
use workspace::Label;

/// The Files of the targets of an attribute's labels.
///
/// # Errors
///
/// `name`, where it is no attribute of labels; `large`, where there are too many for a list.
pub(crate) fn files<'a>(
    alloc: Global,
    dependencies: &Dependencies<'a>,
    value: &'a AttributeValue,
) -> Result<Value, Broken>
    ensures { Gives (files_or_name walked dependencies.now (attribute_labels value.now)) result }
{
    match value {
        AttributeValue::Key(_) => Err(Broken::Kind(Kind::Name)),
        AttributeValue::Strings(_) => Err(Broken::Kind(Kind::Name)),
        AttributeValue::StringDict(_) => Err(Broken::Kind(Kind::Name)),
        AttributeValue::Label(None) => files_of_labels(alloc, dependencies, &[]),
        AttributeValue::Label(Some(label)) => {
            files_of_labels(alloc, dependencies, std::slice::from_ref(label))
        }
        AttributeValue::Labels(labels) => {
            files_of_labels(alloc, dependencies, labels.get().as_slice())
        }
    }
}

/// The listings of the targets of labels, one after the other, as a frozen list, or `large`.
fn files_of_labels<'a>(
    alloc: Global,
    dependencies: &Dependencies<'a>,
    labels: &'a [Shared<Label>],
) -> Result<Value, Broken>
    ensures { Gives (unless_large (files_listed walked dependencies.now labels.now)) result }
{
    let trees = listed(alloc, dependencies, labels)?;
    Ok(frozen_list(alloc, trees)?)
}

/// The listings of the targets of labels, one after the other, or `large` as soon as they are.
fn listed<'a>(
    alloc: Global,
    dependencies: &Dependencies<'a>,
    labels: &'a [Shared<Label>],
) -> Result<Vec<Frozen>, Broken>
    ensures { MatchResult result
        (λ ts. unless_large (files_listed walked dependencies.now labels.now)
        ≡ Ok (frozen_list ts.items))
        (λ e. FaultOr (unless_large (files_listed walked dependencies.now labels.now)) e) }
{
    let mut trees = Vec::new(alloc);
    for label in labels {
        put_files(
            alloc,
            dependencies,
            dependencies.place(label.get()),
            &mut trees,
        )?;
        if trees.len() > LARGEST {
            return Err(Broken::Kind(Kind::Large));
        }
    }
    Ok(trees)
}

/// Puts the listing of the target at a place last.
fn put_files(
    alloc: Global,
    dependencies: &Dependencies<'_>,
    place: usize,
    trees: &mut Vec<Frozen>,
) -> Result<(), AllocError>
    ensures { OnOk result (trees.new.items ≡ trees.old.items
        ++ map element_tree (listed_files walked (slice_get dependencies.now place))) }
{
    match files_in(dependencies.instances(place), dependencies.info()) {
        Some(files) => put_value(alloc, files.item(), trees),
        None => Ok(()),
    }
}

/// Puts the listing of a value last, if it is a depset.
fn put_value(alloc: Global, value: Item<'_>, trees: &mut Vec<Frozen>) -> Result<(), AllocError>
    ensures { OnOk result (trees.new.items ≡ trees.old.items
        ++ map element_tree (listed_or_empty walked (value_depset (item_value value.entry)))) }
{
    match item_depset(value) {
        Some(depset) => put_listing(alloc, depset, trees),
        None => Ok(()),
    }
}

/// Puts the listing of a depset last.
fn put_listing(alloc: Global, depset: &Depset, trees: &mut Vec<Frozen>) -> Result<(), AllocError>
    ensures { OnOk result (trees.new.items ≡ trees.old.items
        ++ map element_tree (walked depset.now)) }
{
    let listing = depset.list_whole(alloc)?;
    put_elements(&listing.items, trees)
}

/// Puts elements last.
fn put_elements(elements: &Elements<'_>, trees: &mut Vec<Frozen>) -> Result<(), AllocError>
    ensures { OnOk result (trees.new.items ≡ trees.old.items ++ map element_tree elements.now) }
{
    for element in elements {
        put_element(element, trees)?;
    }
    Ok(())
}

/// Puts an element last.
fn put_element(element: &Element, trees: &mut Vec<Frozen>) -> Result<(), AllocError>
    ensures { OnOk result (trees.new.items ≡ trees.old.items ++ element_tree element.now ∷ []) }
{
    trees.push(element_tree(element)?)?;
    Ok(())
}

/// An element as a frozen value.
fn element_tree(element: &Element) -> Result<Frozen, AllocError>
    ensures { IfOk result (λ t. t ≡ element_tree element.now) }
{
    match element {
        Element::Text(key) => Ok(Frozen::of_key(Key::Text(key.text().share()?))),
        Element::Number(number) => Ok(Frozen::of_key(Key::Number(*number))),
        Element::Truth(truth) => Ok(Frozen::of_key(Key::Truth(*truth))),
        Element::Label(label) => Ok(Frozen::of_leaf(Leaf::Label(label.share()?))),
        Element::File(file) => Ok(Frozen::of_leaf(Leaf::File(file.share()?))),
    }
}
