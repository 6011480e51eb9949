//! The outcome of a target from what its implementation gave.
ghost use Rattle.std.specs.Prelude.{◌≡◌, ◌++◌, [], Ok, IfOk, OnOk};
ghost use Rattle.values.specs.Tree.{branch};
ghost use Rattle.targets.specs.Steps.{Implemented, finished, with_instances};
ghost use Rattle.targets.specs.Steps.{if_instances, first_unmade, made_whole, with_default_info};
ghost use Rattle.targets.specs.Steps.{missing_default_info};
ghost use Rattle.targets.specs.Sources.{first_depset};
ghost use Rattle.workspace.specs.Labels.{label_text};

use crate::instances::offers;
use crate::outputs::first_unmade;
use crate::returned::are_instances;
use depsets::{Depset, FileRef, Id, Order};
use operations::DefaultInfo;
use plain::Shared;
use std::alloc::{AllocError, Global};
use targets::{Actions, Outcome, Providers, TargetFault, info_with};
use values::{Branch, Frozen, Held, Leaf, Node};
use workspace::Label;

/// The outcome of a target whose implementation returned this, declared these files and registered
/// these actions.
///
/// It is `returned`, unless the result is None or a list of instances of different providers; then
/// `no action`, with the first file that no action makes; else the instances, behind a
/// `DefaultInfo` where none is among them, and the actions.
///
/// # Errors
///
/// `AllocError` where memory was refused.
pub fn finish(
    alloc: Global,
    label: &Label,
    info: &DefaultInfo,
    returned: &Frozen,
    files: &[Shared<FileRef>],
    actions: Actions,
) -> Result<Outcome, AllocError>
    ensures { IfOk result (λ o. o ≡ finished label.now
        (Ok (record { result = returned.now; files = files.now; actions = actions }))) }
{
    match returned.held() {
        Held::Branch(branch) => finish_branch(alloc, label, info, branch, files, actions),
        Held::Leaf(Leaf::None) => done(alloc, label, info, &[], files, actions),
        _ => Ok(Outcome::Failed(TargetFault::Returned)),
    }
}

/// The outcome, where a list, a tuple, a dict or an instance was returned.
fn finish_branch(
    alloc: Global,
    label: &Label,
    info: &DefaultInfo,
    returned: &Branch,
    files: &[Shared<FileRef>],
    actions: Actions,
) -> Result<Outcome, AllocError>
    ensures { IfOk result (λ o. o ≡ finished label.now
        (Ok (record { result = branch returned.now; files = files.now; actions = actions }))) }
{
    match returned.node() {
        Node::List(values) => finish_list(alloc, label, info, values.as_slice(), files, actions),
        _ => Ok(Outcome::Failed(TargetFault::Returned)),
    }
}

/// The outcome, where a list of these values was returned.
fn finish_list(
    alloc: Global,
    label: &Label,
    info: &DefaultInfo,
    values: &[Frozen],
    files: &[Shared<FileRef>],
    actions: Actions,
) -> Result<Outcome, AllocError>
    ensures { IfOk result (λ o. (i : Implemented) → i.files ≡ files.now → i.actions ≡ actions
        → o ≡ with_instances label.now i (if_instances values.now)) }
{
    if !are_instances(alloc, values)? {
        return Ok(Outcome::Failed(TargetFault::Returned));
    }
    done(alloc, label, info, values, files, actions)
}

/// The outcome, where these instances of different providers were returned.
fn done(
    alloc: Global,
    label: &Label,
    info: &DefaultInfo,
    instances: &[Frozen],
    files: &[Shared<FileRef>],
    actions: Actions,
) -> Result<Outcome, AllocError>
    ensures { IfOk result (λ o. o ≡ made_whole label.now instances.now actions
        (first_unmade actions files.now)) }
{
    match first_unmade(alloc, actions.as_slice(), files)? {
        Some(file) => no_action(file.get()),
        None => whole(alloc, label, info, instances, actions),
    }
}

/// A declared file that no action makes.
fn no_action(file: &FileRef) -> Result<Outcome, AllocError>
    ensures { IfOk result (λ o. o ≡ Outcome.Failed (TargetFault.NoAction file.now.path)) }
{
    let path = file.path.text().share()?;
    Ok(Outcome::Failed(TargetFault::NoAction(path)))
}

/// The outcome with these instances and actions.
fn whole(
    alloc: Global,
    label: &Label,
    info: &DefaultInfo,
    instances: &[Frozen],
    actions: Actions,
) -> Result<Outcome, AllocError>
    ensures { IfOk result (λ o. o
        ≡ Outcome.Done (with_default_info label.now instances.now) actions) }
{
    let providers = with_default_info(alloc, label, info, instances)?;
    Ok(Outcome::Done(providers, actions))
}

/// Instances, behind a `DefaultInfo` where none is among them.
fn with_default_info(
    alloc: Global,
    label: &Label,
    info: &DefaultInfo,
    instances: &[Frozen],
) -> Result<Providers, AllocError>
    ensures { IfOk result (λ ps. ps ≡ with_default_info label.now instances.now) }
{
    if offers(instances, info.provider().get()) {
        return shared(alloc, instances);
    }
    let mut providers = Providers::with_capacity(alloc, instances.len().saturating_add(1))?;
    providers.push(missing_default_info(alloc, label, info)?)?;
    put_all(instances, &mut providers)?;
    Ok(providers)
}

/// Other names of instances, in no more memory than they take.
fn shared(alloc: Global, instances: &[Frozen]) -> Result<Providers, AllocError>
    ensures { IfOk result (λ ps. ps ≡ instances.now) }
{
    let mut providers = Providers::with_capacity(alloc, instances.len())?;
    put_all(instances, &mut providers)?;
    Ok(providers)
}

/// Puts instances last.
fn put_all(instances: &[Frozen], providers: &mut Providers) -> Result<(), AllocError>
    ensures { OnOk result (providers.new ≡ providers.old ++ instances.now) }
{
    for instance in instances {
        providers.push(instance.share()?)?;
    }
    Ok(())
}

/// The `DefaultInfo` of a target that returns none: with an empty depset that no call made, whose
/// serial is 0.
fn missing_default_info(
    alloc: Global,
    label: &Label,
    info: &DefaultInfo,
) -> Result<Frozen, AllocError>
    ensures { IfOk result (λ f. f ≡ missing_default_info label.now) }
{
    info_with(alloc, no_files(alloc, label)?, info)
}

/// An empty depset of a target, with serial 0.
fn no_files(alloc: Global, label: &Label) -> Result<Depset, AllocError>
    ensures { IfOk result (λ d. d ≡ first_depset (label_text label.now) []) }
{
    let owner = label.shared_text().share()?;
    let id = Id { owner, serial: 0 };
    match Depset::new(alloc, id, Order::Default, Vec::new(alloc), Vec::new(alloc)) {
        Ok(depset) => Ok(depset),
        Err(_) => Err(AllocError),
    }
}
