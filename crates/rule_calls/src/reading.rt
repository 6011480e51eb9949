//! The label and the values of a target, out of what is given for it.
ghost use Rattle.std.specs.Prelude.{◌≡◌, [], Ok, Err, MatchResult, option_copied};
ghost use Rattle.ticks.specs.Ticking.{FaultOr};
ghost use Rattle.operations.specs.Items.{or_fault};
ghost use Rattle.operations.specs.States.{Gives};
ghost use Rattle.workspace.specs.Labels.{legal_label};
ghost use Rattle.targets.specs.Attributes.{default_of};
ghost use Rattle.targets.specs.RuleCalls.{value_for, label_from};
ghost use Rattle.rule_calls.specs.Each.{put_read, added};

use crate::here::Here;
use crate::typing::typed;
use heap::Heap;
use operands::Operand;
use plain::Shared;
use rule_arguments::ByName;
use state::text_of;
use std::alloc::Global;
use targets::{AttributeValue, NamedAttribute, RuleAttributes, Sequence};
use values::{Broken, Kind};
use workspace::{Label, is_label, label_with};

/// The label of a target in a package, whose name is a string, or `type`.
pub(crate) fn label_from(
    alloc: Global,
    heap: &Heap,
    package: &str,
    name: Option<&Operand<'_>>,
) -> Result<Shared<Label>, Broken>
    ensures { Gives (or_fault Kind.Wrong
        (label_from heap.now «package».now (option_copied name.entry))) result }
{
    let Some(name) = name else {
        return Err(Broken::Kind(Kind::Wrong));
    };
    match text_of(&heap.see_item(name.item())) {
        Some(name) => label_named(alloc, package, name.as_str()),
        None => Err(Broken::Kind(Kind::Wrong)),
    }
}

/// The label of a package and a name, or `type` where they make none.
fn label_named(alloc: Global, package: &str, name: &str) -> Result<Shared<Label>, Broken>
    ensures { Gives (or_fault Kind.Wrong
        (legal_label (record { «package» = «package».now; name = name.now }))) result }
{
    if !is_label(package, name) {
        return Err(Broken::Kind(Kind::Wrong));
    }
    let label = label_with(alloc, package, name)?;
    let label = Shared::new(alloc, label)?;
    Ok(label)
}

/// What a target has for each attribute, or `type`.
pub(crate) fn values_for(
    alloc: Global,
    heap: &Heap,
    package: &Here<'_>,
    arguments: &ByName<'_, '_>,
    attributes: &RuleAttributes,
) -> Result<Sequence<AttributeValue>, Broken>
    ensures { Gives (added (value_for heap.now «package».now arguments.now) []
        attributes.now) result }
{
    let mut values = Sequence::with_capacity(alloc, attributes.len())?;
    for place in 0..attributes.len() {
        let attribute = attributes.at(place);
        let default = attributes.default_at(place);
        if let Err(broken) = put_value(
            alloc,
            heap,
            package,
            arguments,
            attribute,
            default,
            &mut values,
        ) {
            return Err(broken);
        }
    }
    Ok(values)
}

/// Puts what a target has for an attribute of this default last, or `type`.
fn put_value(
    alloc: Global,
    heap: &Heap,
    package: &Here<'_>,
    arguments: &ByName<'_, '_>,
    attribute: &NamedAttribute,
    default: &AttributeValue,
    values: &mut Sequence<AttributeValue>,
) -> Result<(), Broken>
    requires { default.now ≡ default_of attribute.now.attribute }
    ensures { MatchResult result (λ _. put_read values.old
        (value_for heap.now «package».now arguments.now attribute.now) ≡ Ok values.new)
        (λ e. FaultOr (put_read values.old
        (value_for heap.now «package».now arguments.now attribute.now)) e) }
{
    let value = value_for(alloc, heap, package, arguments, attribute, default)?;
    values.push(value)?;
    Ok(())
}

/// What a target has for an attribute: what is given, or else the default, which is shared; or
/// `type`.
fn value_for(
    alloc: Global,
    heap: &Heap,
    package: &Here<'_>,
    arguments: &ByName<'_, '_>,
    attribute: &NamedAttribute,
    default: &AttributeValue,
) -> Result<AttributeValue, Broken>
    requires { default.now ≡ default_of attribute.now.attribute }
    ensures { Gives (or_fault Kind.Wrong
        (value_for heap.now «package».now arguments.now attribute.now)) result }
{
    match arguments.given_as(attribute.name.as_str()) {
        Some(value) => typed(alloc, heap, package, attribute.attribute.get(), value),
        None => {
            let value = default.share()?;
            Ok(value)
        }
    }
}
