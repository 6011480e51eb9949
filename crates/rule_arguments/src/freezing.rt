//! Freezing what a call of a rule gives.
ghost use Rattle.std.specs.Prelude.{Ok, Err, option_copied};
ghost use Rattle.ticks.specs.Ticking.{Says};
ghost use Rattle.targets.specs.RuleCalls.{given_as};
ghost use Rattle.rule_arguments.specs.Freezing.{frozen_option, frozen_for};

use crate::given::ByName;
use heap::Heap;
use operands::Operand;
use std::alloc::Global;
use targets::NamedAttribute;
use values::{Broken, Ticks};
use visits::freeze;

/// Freezes what is given for attributes, in their order, for the ticks and the faults of it. The
/// trees are let go: the target has what was read of the arguments.
///
/// # Errors
///
/// The first fault of freezing them, such as `steps` where the ticks are used up; `NoMemory` where
/// memory was refused.
pub fn freeze_given(
    alloc: Global,
    attributes: &[NamedAttribute],
    arguments: &ByName<'_, '_>,
    heap: &Heap,
    ticks: &mut Ticks,
) -> Result<(), Broken>
    ensures { Says (frozen_for attributes.now arguments.now heap.now ticks.old) result
        ticks.new }
{
    for attribute in attributes {
        let value = arguments.given_as(attribute.name.as_str());
        if let Err(broken) = freeze_option(alloc, value, heap, ticks) {
            return Err(broken);
        }
    }
    Ok(())
}

/// Freezes a value, if there is one.
fn freeze_option(
    alloc: Global,
    value: Option<&Operand<'_>>,
    heap: &Heap,
    ticks: &mut Ticks,
) -> Result<(), Broken>
    ensures { Says (frozen_option (option_copied value.entry) heap.now ticks.old) result ticks.new }
{
    let Some(value) = value else {
        return Ok(());
    };
    let _ = freeze(alloc, value.item(), heap, ticks)?;
    Ok(())
}
