//! The checks of dependencies.
ghost use Rattle.std.specs.Prelude.{◌≡◌, IfOk, OnOk, option_map, nat_eq};
ghost use Rattle.std.specs.List.{ends_with};
ghost use Rattle.targets.specs.Checks.{takes_file, refusal, refused, dependency_of, first_in_value};
ghost use Rattle.targets.specs.Checks.{first_refused};
ghost use Rattle.targets.specs.Attributes.{labels_in};
ghost use Rattle.analysis.specs.Unasked.{takes_targets, take_targets, is_no_source, are_no_sources};
ghost use Rattle.analysis.specs.Seen.{dependency_seen, dependencies_seen, AreFound, HasMore};

use crate::dependency::Dependency;
use crate::instances::offers_enough;
use crate::label_keys::{LabelKey, label_key};
use plain::{Shared, Text};
use std::alloc::{AllocError, Global};
use std::collections::BTreeMap;
use targets::{
    AllowFiles, Attribute, AttributeValue, NamedAttribute, Outcome, Target, TargetFault,
};
use workspace::Label;

/// Whether a path ends with a text.
fn ends_with(path: &str, ending: &Text) -> bool
    ensures { result ≡ ends_with nat_eq path.now ending.now }
{
    path.ends_with(ending.as_str())
}

/// Whether a path ends with one of these.
fn ends_with_any(path: &str, endings: &[Text]) -> bool
    ensures { result ≡ takes_file (AllowFiles.Ending endings.now) path.now }
{
    endings.iter().any(|ending| ends_with(path, ending))
}

/// Whether an attribute takes the source file at a path.
fn takes_file(allowed: &AllowFiles, path: &str) -> bool
    ensures { result ≡ takes_file allowed.now path.now }
{
    match allowed {
        AllowFiles::Any => true,
        AllowFiles::Nothing => false,
        AllowFiles::Ending(endings) => ends_with_any(path, endings.as_slice()),
    }
}

/// Why an attribute refuses a dependency, if it does.
fn refusal(
    alloc: Global,
    named: &NamedAttribute,
    dependency: &Dependency<'_>,
) -> Result<Option<TargetFault>, AllocError>
    ensures { IfOk result (λ f. f ≡ refusal named.now (dependency_seen dependency.now)) }
{
    let attribute = named.attribute.get();
    match dependency.outcome {
        Outcome::Source(file) => {
            if takes_file(&attribute.allow_files, file.file().path.as_str()) {
                return Ok(None);
            }
            let name = named.name.share()?;
            Ok(Some(TargetFault::FileKind(name, dependency.label.share()?)))
        }
        Outcome::Done(providers, _) => {
            if offers_enough(alloc, providers.as_slice(), attribute.providers.as_slice())? {
                return Ok(None);
            }
            let name = named.name.share()?;
            Ok(Some(TargetFault::ProvidersMissing(name, dependency.label.share()?)))
        }
        Outcome::Failed(_) => Ok(None),
    }
}

/// Dependencies, found by their labels.
#[derive(Drop)]
struct Found<'a> {
    dependencies: &'a [Dependency<'a>],
    /// The first dependency of each label.
    by_label: BTreeMap<LabelKey<'a>, Dependency<'a>>,
}

impl<'a> Found<'a> {
    /// These dependencies.
    fn new(alloc: Global, dependencies: &'a [Dependency<'a>]) -> Result<Found<'a>, AllocError>
        ensures its { IfOk result (λ f. f.dependencies.now ≡ dependencies.now) }
        ensures found { IfOk result
            (λ f. AreFound (dependencies_seen f.dependencies.now) f.by_label) }
    {
        let by_label = by_label(alloc, dependencies)?;
        Ok(Found {
            dependencies,
            by_label,
        })
    }

    /// The first dependency of a label.
    fn get(&self, label: &'a Label) -> Option<&Dependency<'a>>
        requires { AreFound (dependencies_seen self.now.dependencies.now) self.now.by_label }
        ensures { option_map (λ d. dependency_seen d.now) result
            ≡ dependency_of (dependencies_seen self.now.dependencies.now) label.now }
    {
        self.by_label.get(&label_key(label))
    }
}

/// The first dependency of each label.
fn by_label<'a>(
    alloc: Global,
    dependencies: &[Dependency<'a>],
) -> Result<BTreeMap<LabelKey<'a>, Dependency<'a>>, AllocError>
    ensures { IfOk result (λ found. AreFound (dependencies_seen dependencies.now) found) }
{
    let mut found = BTreeMap::new(alloc);
    for dependency in dependencies {
        put(*dependency, &mut found)?;
    }
    Ok(found)
}

/// Puts a dependency, unless one of its label is there.
fn put<'a>(
    dependency: Dependency<'a>,
    found: &mut BTreeMap<LabelKey<'a>, Dependency<'a>>,
) -> Result<(), AllocError>
    ensures { OnOk result (HasMore dependency.entry found.old found.new) }
{
    let key = label_key(dependency.label.get());
    if !found.contains_key(&key) {
        found.insert(key, dependency)?;
    }
    Ok(())
}

/// Why an attribute refuses the dependency of a label, if it does.
fn refused<'a>(
    alloc: Global,
    named: &NamedAttribute,
    label: &'a Label,
    found: &Found<'a>,
) -> Result<Option<TargetFault>, AllocError>
    requires { AreFound (dependencies_seen found.now.dependencies.now) found.now.by_label }
    ensures { IfOk result (λ f. f ≡ refused named.now
        (dependency_of (dependencies_seen found.now.dependencies.now) label.now)) }
{
    match found.get(label) {
        Some(dependency) => refusal(alloc, named, dependency),
        None => Ok(None),
    }
}

/// The first refusal of labels.
fn first_in_labels<'a>(
    alloc: Global,
    named: &NamedAttribute,
    labels: &'a [Shared<Label>],
    found: &Found<'a>,
) -> Result<Option<TargetFault>, AllocError>
    requires { AreFound (dependencies_seen found.now.dependencies.now) found.now.by_label }
    ensures { IfOk result (λ f. f
        ≡ first_in_value (dependencies_seen found.now.dependencies.now) named.now labels.now) }
{
    for label in labels {
        let fault = refused(alloc, named, label.get(), found)?;
        if fault.is_some() {
            return Ok(fault);
        }
    }
    Ok(None)
}

/// The first refusal of a value's labels.
fn first_in_value<'a>(
    alloc: Global,
    named: &NamedAttribute,
    value: &'a AttributeValue,
    found: &Found<'a>,
) -> Result<Option<TargetFault>, AllocError>
    requires { AreFound (dependencies_seen found.now.dependencies.now) found.now.by_label }
    ensures { IfOk result (λ f. f ≡ first_in_value
        (dependencies_seen found.now.dependencies.now) named.now (labels_in value.now)) }
{
    match value {
        AttributeValue::Key(_) => Ok(None),
        AttributeValue::Strings(_) => Ok(None),
        AttributeValue::StringDict(_) => Ok(None),
        AttributeValue::Label(None) => Ok(None),
        AttributeValue::Label(Some(label)) => refused(alloc, named, label.get(), found),
        AttributeValue::Labels(labels) => first_in_labels(
            alloc,
            named,
            labels.get().as_slice(),
            found,
        ),
    }
}

/// The first refusal of the labels of values, each of the attribute at its place.
fn first_in_values<'a>(
    alloc: Global,
    attributes: &[NamedAttribute],
    values: &'a [AttributeValue],
    found: &Found<'a>,
) -> Result<Option<TargetFault>, AllocError>
    requires { AreFound (dependencies_seen found.now.dependencies.now) found.now.by_label }
    ensures { IfOk result (λ f. f ≡ first_refused
        (dependencies_seen found.now.dependencies.now) attributes.now values.now) }
{
    for (place, named) in attributes.iter().enumerate() {
        let fault = match values.get(place) {
            Some(value) => first_in_value(alloc, named, value, found)?,
            None => return Ok(None),
        };
        if fault.is_some() {
            return Ok(fault);
        }
    }
    Ok(None)
}

/// Whether none of the attributes asks anything of targets.
fn take_targets(attributes: &[NamedAttribute]) -> bool
    ensures { result ≡ take_targets attributes.now }
{
    attributes.iter().all(|named| takes_targets(named))
}

fn takes_targets(named: &NamedAttribute) -> bool
    ensures { result ≡ takes_targets named.now }
{
    named.attribute.get().providers.len() == 0
}

/// Whether none of the dependencies is a source file.
fn are_no_sources(dependencies: &[Dependency<'_>]) -> bool
    ensures { result ≡ are_no_sources (dependencies_seen dependencies.now) }
{
    for dependency in dependencies {
        if !is_no_source(dependency.outcome) {
            return false;
        }
    }
    true
}

fn is_no_source(outcome: &Outcome) -> bool
    ensures { result ≡ is_no_source outcome.now }
{
    match outcome {
        Outcome::Source(_) => false,
        Outcome::Done(_, _) => true,
        Outcome::Failed(_) => true,
    }
}

/// Why a target's attributes refuse one of its dependencies: the first, by attribute and then by
/// value.
///
/// # Errors
///
/// `AllocError` where memory was refused.
#[tactic(auto, using(crate::proofs::Unrefused::none_in_all))]
pub fn first_refused<'a>(
    alloc: Global,
    target: &'a Target,
    dependencies: &'a [Dependency<'a>],
) -> Result<Option<TargetFault>, AllocError>
    ensures { IfOk result (λ f. f ≡ first_refused (dependencies_seen dependencies.now)
        target.now.rule.attributes target.now.values) }
{
    let attributes = target.rule.get().attributes.as_slice();
    if take_targets(attributes) && are_no_sources(dependencies) {
        return Ok(None);
    }
    let found = Found::new(alloc, dependencies)?;
    first_in_values(alloc, attributes, target.values.as_slice(), &found)
}
