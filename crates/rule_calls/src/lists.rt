//! Labels of a package, out of the items of a list.
ghost use Rattle.std.specs.Prelude.{◌≡◌, [], Ok, Err, MatchResult};
ghost use Rattle.values.specs.Seeing.{seen, group_items};
ghost use Rattle.values.specs.Shape.{shape};
ghost use Rattle.ticks.specs.Ticking.{FaultOr};
ghost use Rattle.operations.specs.States.{Gives};
ghost use Rattle.targets.specs.RuleCalls.{label_in};
ghost use Rattle.rule_calls.specs.Each.{put_read, added};

use crate::here::Here;
use heap::Heap;
use plain::Shared;
use state::text_of;
use std::alloc::Global;
use targets::Sequence;
use values::{Broken, Group, Kind, Seen};
use workspace::Label;

/// The labels that items are, whose texts are read in a package, or `type`.
pub(crate) fn labels<'b>(
    alloc: Global,
    heap: &'b Heap,
    package: &Here<'_>,
    items: Group<'b, '_>,
) -> Result<Sequence<Shared<Label>>, Broken>
    ensures { Gives (added (λ v. label_in heap.now «package».now (shape heap.now v)) []
        (group_items items.entry)) result }
{
    let mut labels = Sequence::with_capacity(alloc, items.len())?;
    for item in items {
        let value = heap.see_item(item);
        if let Err(broken) = put_label(alloc, heap, package, &value, &mut labels) {
            return Err(broken);
        }
    }
    Ok(labels)
}

/// Puts the label that a value is last, or `type`.
fn put_label(
    alloc: Global,
    heap: &Heap,
    package: &Here<'_>,
    value: &Seen<'_, '_>,
    labels: &mut Sequence<Shared<Label>>,
) -> Result<(), Broken>
    ensures { MatchResult result
        (λ _. put_read labels.old (label_in heap.now «package».now (seen value.now))
        ≡ Ok labels.new)
        (λ e. FaultOr (put_read labels.old (label_in heap.now «package».now (seen value.now))) e) }
{
    let Some(text) = text_of(value) else {
        return Err(Broken::Kind(Kind::Wrong));
    };
    let label = package.label(alloc, text.as_str())?;
    labels.push(label)?;
    Ok(())
}
