//! Labels that stand twice in a list that is given.
ghost use Rattle.std.specs.Prelude.{◌≡◌, ◌&&◌, IfOk, true, false};
ghost use Rattle.targets.specs.RuleCalls.{is_given, repeats, repeats_label, repeats_given};

use analysis::label_key;
use plain::Shared;
use rule_arguments::ByName;
use std::alloc::{AllocError, Global};
use std::collections::BTreeSet;
use targets::{AttributeValue, NamedAttribute};
use workspace::Label;

/// Whether a list of labels that is given has one twice. A default may have it.
pub(crate) fn repeats_given(
    alloc: Global,
    attributes: &[NamedAttribute],
    arguments: &ByName<'_, '_>,
    values: &[AttributeValue],
) -> Result<bool, AllocError>
    ensures { IfOk result (λ b. b
        ≡ repeats_given attributes.now arguments.now values.now) }
{
    for (place, attribute) in attributes.iter().enumerate() {
        let repeats = match values.get(place) {
            Some(value) => repeats_for(alloc, attribute, arguments, value)?,
            None => return Ok(false),
        };
        if repeats {
            return Ok(true);
        }
    }
    Ok(false)
}

/// Whether what is given for an attribute has a label twice.
fn repeats_for(
    alloc: Global,
    attribute: &NamedAttribute,
    arguments: &ByName<'_, '_>,
    value: &AttributeValue,
) -> Result<bool, AllocError>
    ensures { IfOk result (λ b. b
        ≡ (is_given arguments.now attribute.now.name && repeats_label value.now)) }
{
    match value {
        AttributeValue::Labels(labels) => {
            if arguments.given_as(attribute.name.as_str()).is_none() {
                return Ok(false);
            }
            repeats(alloc, labels.get().as_slice())
        }
        _ => Ok(false),
    }
}

/// Whether one of the labels is there twice. They are found by order, so who chooses them can't
/// make this slow.
fn repeats(alloc: Global, labels: &[Shared<Label>]) -> Result<bool, AllocError>
    ensures { IfOk result (λ b. b ≡ repeats labels.now) }
{
    let mut seen = BTreeSet::new(alloc);
    for label in labels {
        let is_new = seen.insert(label_key(label.get()))?;
        if !is_new {
            return Ok(true);
        }
    }
    Ok(false)
}
