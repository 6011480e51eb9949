//! The call of a rule.
ghost use Rattle.std.specs.Prelude.{Ok, Err, Some};
ghost use Rattle.operations.specs.Arguments.{given};
ghost use Rattle.operations.specs.States.{Does, Gives};
ghost use Rattle.targets.specs.RuleCalls.{declares};
ghost use Rattle.rule_calls.specs.Called.{target_of, target_read, call, Calls};

use crate::by_name::PackageTargets;
use crate::fitting::fits;
use crate::here::Here;
use crate::reading::{label_from, values_for};
use crate::repeats::repeats_given;
use heap::Heap;
use operations::{Arguments, State};
use plain::Shared;
use rule_arguments::{ByName, freeze_given};
use std::alloc::Global;
use targets::{AttributeValue, Rule, Sequence, Target};
use values::{Broken, Kind};
use workspace::Label;

/// The target that the call of a rule declares in a package.
///
/// # Errors
///
/// The first of `arity`, `type`, `key` and `steps`, as `docs/PROFILE.md` says of calls of rules;
/// `NoMemory` where memory was refused. After a `Broken` the heap and the count of depsets are as
/// they were; the ticks are open.
pub fn declare_target(
    alloc: Global,
    state: &mut State,
    declared: &PackageTargets,
    rule: &Shared<Rule>,
    arguments: &Arguments<'_, '_>,
) -> Result<Target, Broken>
    ensures { Does (declares declared.now.«package» declared.now.targets rule.now
        (given arguments.now)) state.old result state.new }
{
    let given = ByName::new(alloc, arguments)?;
    declare_by_name(alloc, state, declared, rule, &given)
}

/// The same, of what the call gives by name.
fn declare_by_name(
    alloc: Global,
    state: &mut State,
    declared: &PackageTargets,
    rule: &Shared<Rule>,
    arguments: &ByName<'_, '_>,
) -> Result<Target, Broken>
    ensures { Does (declares declared.now.«package» declared.now.targets rule.now arguments.now)
        state.old result state.new }
{
    if !fits(rule.get(), arguments) {
        return Err(Broken::Kind(Kind::Arity));
    }
    let target = read_target(alloc, &state.heap, declared, rule, arguments)?;
    let attributes = rule.get().attributes.as_slice();
    match freeze_given(alloc, attributes, arguments, &state.heap, &mut state.ticks) {
        Ok(()) => Ok(target),
        Err(broken) => Err(broken),
    }
}

/// A call of a rule while the `BUILD` file of a package runs: the package has the target that it
/// declares.
///
/// # Errors
///
/// Those of [`declare_target`]; then the package has what it had.
pub fn call_rule(
    alloc: Global,
    state: &mut State,
    declared: &mut PackageTargets,
    rule: &Shared<Rule>,
    arguments: &Arguments<'_, '_>,
) -> Result<(), Broken>
    ensures { Calls (call declared.old rule.now (given arguments.now) state.old) declared.old
        state.old result declared.new state.new }
{
    let target = match declare_target(alloc, state, declared, rule, arguments) {
        Ok(target) => target,
        Err(broken) => return Err(broken),
    };
    match declared.push(target) {
        Ok(()) => Ok(()),
        Err(_) => Err(Broken::NoMemory),
    }
}

/// The target that a call whose arguments fit declares, or the first of `type` and `key`.
fn read_target(
    alloc: Global,
    heap: &Heap,
    declared: &PackageTargets,
    rule: &Shared<Rule>,
    arguments: &ByName<'_, '_>,
) -> Result<Target, Broken>
    ensures { Gives (target_read heap.now declared.now rule.now arguments.now) result }
{
    let package = declared.package();
    let name = arguments.given_as("name");
    let label = label_from(alloc, heap, package, name)?;
    let here = Here::new(declared);
    let values = values_for(alloc, heap, &here, arguments, &rule.get().attributes)?;
    new_target(alloc, declared, rule, arguments, label, values)
}

/// The target of a label and of values, or `key`.
fn new_target(
    alloc: Global,
    declared: &PackageTargets,
    rule: &Shared<Rule>,
    arguments: &ByName<'_, '_>,
    label: Shared<Label>,
    values: Sequence<AttributeValue>,
) -> Result<Target, Broken>
    ensures { Gives (target_of rule.now declared.now.targets arguments.now (Some label)
        (Some values)) result }
{
    let attributes = rule.get().attributes.as_slice();
    let repeats = repeats_given(alloc, attributes, arguments, values.as_slice())?;
    if repeats || declared.has(label.get()) {
        return Err(Broken::Kind(Kind::Key));
    }
    let rule = rule.share()?;
    Ok(Target {
        label,
        rule,
        values,
    })
}
