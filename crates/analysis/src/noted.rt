//! The dependencies of a target.
ghost use Rattle.std.specs.Prelude.{◌≡◌, IfOk, OnOk};
ghost use Rattle.depsets.specs.Keys.{keep, keep_all};
ghost use Rattle.targets.specs.Attributes.{labels_in};
ghost use Rattle.workspace.specs.Labels.{same_label};
ghost use Rattle.targets.specs.Resolving.{dependencies};
ghost use Rattle.analysis.specs.Keyed.{IsNoted};

use crate::label_keys::{LabelKey, label_key};
use crate::needed::Needed;
use plain::Shared;
use std::alloc::{AllocError, Global};
use std::collections::BTreeSet;
use targets::{AttributeValue, Sequence, Target};
use workspace::Label;

/// The dependencies of a target: the labels that it has for its attributes, in order, each at its
/// first place alone.
///
/// Labels are found by order, so who chooses them can't make this slow.
///
/// # Errors
///
/// `AllocError` where memory was refused.
pub fn dependencies(alloc: Global, target: &Target) -> Result<Needed, AllocError>
    ensures { IfOk result (λ ls. ls ≡ dependencies target.now) }
{
    let mut seen = BTreeSet::new(alloc);
    let mut labels = Sequence::new(alloc);
    for value in target.values.as_slice() {
        note_value(value, &mut seen, &mut labels)?;
    }
    Needed::new(alloc, labels)
}

/// Notes the labels of a value.
fn note_value<'a>(
    value: &'a AttributeValue,
    seen: &mut BTreeSet<LabelKey<'a>>,
    labels: &mut Sequence<Shared<Label>>,
) -> Result<(), AllocError>
    requires { IsNoted labels.old seen.old }
    ensures labels { OnOk result (labels.new
        ≡ keep_all same_label labels.old (labels_in value.now)) }
    ensures noted { OnOk result (IsNoted labels.new seen.new) }
{
    match value {
        AttributeValue::Key(_) => Ok(()),
        AttributeValue::Strings(_) => Ok(()),
        AttributeValue::StringDict(_) => Ok(()),
        AttributeValue::Label(None) => Ok(()),
        AttributeValue::Label(Some(label)) => note(label, seen, labels),
        AttributeValue::Labels(all) => note_all(all.get().as_slice(), seen, labels),
    }
}

/// Notes labels, in order.
fn note_all<'a>(
    all: &'a [Shared<Label>],
    seen: &mut BTreeSet<LabelKey<'a>>,
    labels: &mut Sequence<Shared<Label>>,
) -> Result<(), AllocError>
    requires { IsNoted labels.old seen.old }
    ensures labels { OnOk result (labels.new ≡ keep_all same_label labels.old all.now) }
    ensures noted { OnOk result (IsNoted labels.new seen.new) }
{
    for label in all {
        note(label, seen, labels)?;
    }
    Ok(())
}

/// Notes a label, unless it is noted.
fn note<'a>(
    label: &'a Shared<Label>,
    seen: &mut BTreeSet<LabelKey<'a>>,
    labels: &mut Sequence<Shared<Label>>,
) -> Result<(), AllocError>
    requires { IsNoted labels.old seen.old }
    ensures labels { OnOk result (labels.new ≡ keep same_label labels.old label.now) }
    ensures noted { OnOk result (IsNoted labels.new seen.new) }
{
    let is_new = seen.insert(label_key(label.get()))?;
    if is_new {
        labels.push(label.share()?)?;
    }
    Ok(())
}
