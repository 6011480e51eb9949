//! What a target has for its attributes, as values.
ghost use Rattle.std.specs.Prelude.{◌≡◌, ◌++◌, ◌∷◌, [], IfOk, IfSome, OnOk, map, option_map};
ghost use Rattle.std.specs.Prelude.{slice_get};
ghost use Rattle.values.specs.Tree.{leaf};
ghost use Rattle.operations.specs.Items.{at_place};
ghost use Rattle.contexts.specs.Fields.{attribute_value, target_tree, frozen_list};

use crate::dependencies::Dependencies;
use operands::Operand;
use plain::Shared;
use std::alloc::{AllocError, Global};
use std::marker::Model;
use targets::AttributeValue;
use values::{Branch, Frozen, Item, Leaf, Value};
use workspace::Label;

/// What a target has for each attribute of its rule, as a value. What lies in the target is lent,
/// strings in lists and dicts too; what depends on the dependencies is made here, once, and lent to
/// each that reads it. A target has this where it has a list of labels, which takes as long to make
/// as it has labels; all else is as soon made at each read.
#[derive(Drop)]
pub(crate) struct AttributeValues<'a> {
    values: Vec<Operand<'a>>,
}

impl<'a> Model for AttributeValues<'a> {
    ghost use Rattle.std.specs.Prelude.{List};
    ghost use Rattle.values.specs.declared.value.Value.{Value as Held};
    ghost use Rattle.values.specs.ValueCodes.{items_code};

    ghost Value = { List Held };

    ghost coded = { items_code };

    ghost view = { λ a. a.values.items };
}

impl<'a> AttributeValues<'a> {
    /// Those of a target with these dependencies, if there is a label in a list of them.
    pub(crate) fn with_lists(
        alloc: Global,
        dependencies: &Dependencies<'a>,
        values: &'a [AttributeValue],
    ) -> Result<Option<AttributeValues<'a>>, AllocError>
        ensures { IfOk result
            (λ o. IfSome o (λ a. a ≡ map (attribute_value dependencies.now) values.now)) }
    {
        if !values.iter().any(|value| has_listed(value)) {
            return Ok(None);
        }
        let values = made_values(alloc, dependencies, values)?;
        Ok(Some(AttributeValues { values }))
    }

    /// That of the attribute at a place, if there is one.
    pub(crate) fn at(&self, place: Option<usize>) -> Option<Operand<'_>>
        ensures { result ≡ at_place self.now place }
    {
        match place {
            Some(place) => lent_at(self.values.as_slice(), place),
            None => None,
        }
    }
}

/// Whether a value is a list of labels that has one.
fn has_listed(value: &AttributeValue) -> bool {
    match value {
        AttributeValue::Labels(labels) => !labels.get().as_slice().is_empty(),
        _ => false,
    }
}

/// The value at a place, lent from where it lies.
fn lent_at<'a>(values: &'a [Operand<'_>], place: usize) -> Option<Operand<'a>>
    ensures { result ≡ slice_get values.now place }
{
    match values.get(place) {
        Some(value) => Some(Operand::lent(value.item())),
        None => None,
    }
}

/// What a target has for the attribute at a place, if there is one, made anew.
pub(crate) fn made_at<'a>(
    alloc: Global,
    dependencies: &Dependencies<'a>,
    values: &'a [AttributeValue],
    place: Option<usize>,
) -> Result<Option<Operand<'a>>, AllocError>
    ensures { IfOk result
        (λ o. o ≡ option_map (attribute_value dependencies.now) (at_place values.now place)) }
{
    let Some(place) = place else {
        return Ok(None);
    };
    match values.get(place) {
        Some(value) => Ok(Some(attribute_value(alloc, dependencies, value)?)),
        None => Ok(None),
    }
}

/// What a target has for attributes, as values.
fn made_values<'a>(
    alloc: Global,
    dependencies: &Dependencies<'a>,
    values: &'a [AttributeValue],
) -> Result<Vec<Operand<'a>>, AllocError>
    ensures { IfOk result
        (λ os. os.items ≡ map (attribute_value dependencies.now) values.now) }
{
    let mut made = Vec::with_capacity(alloc, values.len())?;
    for value in values {
        put_value(alloc, dependencies, value, &mut made)?;
    }
    Ok(made)
}

/// Puts what a target has for an attribute last.
fn put_value<'a>(
    alloc: Global,
    dependencies: &Dependencies<'a>,
    value: &'a AttributeValue,
    made: &mut Vec<Operand<'a>>,
) -> Result<(), AllocError>
    ensures { OnOk result (made.new.items
        ≡ made.old.items ++ attribute_value dependencies.now value.now ∷ []) }
{
    made.push(attribute_value(alloc, dependencies, value)?)?;
    Ok(())
}

/// What a target has for an attribute, as a value: labels are the targets of the dependencies.
fn attribute_value<'a>(
    alloc: Global,
    dependencies: &Dependencies<'a>,
    value: &'a AttributeValue,
) -> Result<Operand<'a>, AllocError>
    ensures { IfOk result (λ v. v ≡ attribute_value dependencies.now value.now) }
{
    match value {
        AttributeValue::Key(key) => Ok(Operand::lent(Item::Key(key))),
        AttributeValue::Strings(texts) => Ok(Operand::lent(texts.get().tree().item())),
        AttributeValue::StringDict(dict) => Ok(Operand::lent(dict.get().tree().item())),
        AttributeValue::Label(None) => Ok(Operand::own(Value::Leaf(Leaf::None))),
        AttributeValue::Label(Some(label)) => {
            let place = dependencies.place(label.get());
            Ok(Operand::own(Value::Leaf(Leaf::Target(place))))
        }
        AttributeValue::Labels(labels) => {
            let targets = target_trees(alloc, dependencies, labels.get().as_slice())?;
            Ok(Operand::own(frozen_list(alloc, targets)?))
        }
    }
}

/// A frozen list of these items.
pub(crate) fn frozen_list(alloc: Global, items: Vec<Frozen>) -> Result<Value, AllocError>
    ensures { IfOk result (λ v. v ≡ frozen_list items.items) }
{
    let list = Branch::list(alloc, items)?;
    Ok(Value::Frozen(list))
}

/// The targets of labels as frozen values.
fn target_trees<'a>(
    alloc: Global,
    dependencies: &Dependencies<'a>,
    labels: &'a [Shared<Label>],
) -> Result<Vec<Frozen>, AllocError>
    ensures { IfOk result (λ ts. ts.items ≡ map (target_tree dependencies.now) labels.now) }
{
    let mut trees = Vec::with_capacity(alloc, labels.len())?;
    for label in labels {
        put_target(dependencies.place(label.get()), &mut trees)?;
    }
    Ok(trees)
}

/// Puts a target last.
fn put_target(place: usize, trees: &mut Vec<Frozen>) -> Result<(), AllocError>
    ensures { OnOk result (trees.new.items ≡ trees.old.items ++ leaf (Leaf.Target place) ∷ []) }
{
    trees.push(Frozen::of_leaf(Leaf::Target(place)))?;
    Ok(())
}
