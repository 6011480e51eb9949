//! What the implementation of a target reads.
ghost use Rattle.std.proofs.Props.{props};
ghost use Rattle.std.specs.Prelude.{◌≡◌, ℕ, IfOk, IfSome, map, option_map};
ghost use Rattle.values.specs.Seeing.{item_value};
ghost use Rattle.first_places.specs.Places.{place_named};
ghost use Rattle.targets.specs.Placed.{names_of};
ghost use Rattle.analysis.specs.Seen.{dependencies_seen};
ghost use Rattle.operations.specs.Making.{text};
ghost use Rattle.operations.specs.States.{Gives};
ghost use Rattle.contexts.specs.Fields.{attribute_value, label_value, value_for};
ghost use Rattle.contexts.specs.ByPlace.{files_at};

use crate::attributes::{AttributeValues, made_at};
use crate::dependencies::Dependencies;
use crate::kept::{FileLists, KeptLists};
use crate::listings::files;
use analysis::Dependency;
use field_names::FieldName;
use operands::{Operand, owned};
use operations::DefaultInfo;
use plain::Text;
use std::alloc::{AllocError, Global};
use targets::Target;
use values::{Broken, Item, Key, Kind, Leaf, Value};
use workspace::Label;

/// A label, its target and the target's dependencies with their outcomes; and what is made of them
/// once, and lent to all that reads it: the label as a value, what a target with lists of labels
/// has for its attributes, and the lists of `ctx.files` that were read. In the type of these, `I`
/// stands for the target.
#[derive(Drop)]
pub struct TargetContext<'a, I: FileLists> {
    /// The target's label.
    pub label: &'a Label,
    /// The target.
    pub target: &'a Target,
    /// Its dependencies with their outcomes.
    pub dependencies: Dependencies<'a>,
    own_label: Value,
    attributes: Option<AttributeValues<'a>>,
    kept: KeptLists<I>,
    ghost labelled: { own_label ≡ label_value label.now },
    ghost made: { IfSome attributes
        (λ a. a ≡ map (attribute_value dependencies) target.now.values) } by { Prim.hlevel props },
    ghost listed: { (place : ℕ) → I.list_at place ≡ files_at target.now dependencies place },
}

impl<'a, I: FileLists> TargetContext<'a, I> {
    /// What the implementation of a label's target reads, with these dependencies. Where they are
    /// many, the place of each label is noted once. What `I` is to give is a matter of proofs
    /// alone: whoever calls picks it, and no target or dependency is refused.
    ///
    /// # Errors
    ///
    /// `AllocError` where memory was refused.
    pub fn new(
        alloc: Global,
        label: &'a Label,
        target: &'a Target,
        dependencies: &'a [Dependency<'a>],
        info: &'a DefaultInfo,
    ) -> Result<TargetContext<'a, I>, AllocError>
        requires lists { (place : ℕ)
            → I.list_at place ≡ files_at target.now (dependencies_seen dependencies.now) place }
        ensures label { IfOk result (λ c. c.label.now ≡ label.now) }
        ensures target { IfOk result (λ c. c.target.now ≡ target.now) }
        ensures dependencies { IfOk result
            (λ c. c.dependencies ≡ dependencies_seen dependencies.now) }
    {
        let dependencies = Dependencies::new(alloc, dependencies, info)?;
        let attributes = AttributeValues::with_lists(
            alloc,
            &dependencies,
            target.values.as_slice(),
        )?;
        let own_label = label_value(label)?;
        Ok(TargetContext {
            label,
            target,
            dependencies,
            own_label,
            attributes,
            kept: KeptLists::new(),
        })
    }

    /// `ctx.label`.
    pub(crate) fn own_label(&self) -> Item<'_>
        ensures { item_value result ≡ label_value self.now.label.now }
    {
        self.own_label.item()
    }

    /// `ctx.attr.name`, made anew.
    pub(crate) fn own_name(&self, alloc: Global) -> Result<Operand<'_>, AllocError>
        ensures { IfOk result (λ v. v ≡ text self.now.label.now.name) }
    {
        let name = Text::new(alloc, self.label.name())?;
        Ok(Operand::own(Value::Key(Key::Text(name))))
    }

    /// What the target has for the attribute of a name, as a value.
    pub(crate) fn attribute(
        &self,
        alloc: Global,
        name: &FieldName,
    ) -> Result<Option<Operand<'_>>, AllocError>
        ensures { IfOk result (λ o. o ≡ option_map (attribute_value self.now.dependencies)
            (value_for self.now.target.now name.now)) }
    {
        let place = attribute_place(self.target, name);
        match &self.attributes {
            Some(values) => Ok(values.at(place)),
            None => made_at(
                alloc,
                &self.dependencies,
                self.target.values.as_slice(),
                place,
            ),
        }
    }

    /// `ctx.files` of the attribute at a place: it is listed at its first read, and lent from then
    /// on.
    pub(crate) fn files_at(&self, alloc: Global, place: usize) -> Result<Operand<'_>, Broken>
        ensures { Gives (files_at self.now.target.now self.now.dependencies place) result }
    {
        if let Some(list) = self.kept.at(place) {
            return Ok(Operand::lent(list));
        }
        let list = self.listed(alloc, place)?;
        self.kept
            .keep(alloc, self.target.values.len(), place, list)?;
        match self.kept.at(place) {
            Some(list) => Ok(Operand::lent(list)),
            // No clause says that what was kept is found, so it may be made once more.
            None => owned(self.listed(alloc, place)),
        }
    }

    /// The list of the attribute at a place, made anew.
    fn listed(&self, alloc: Global, place: usize) -> Result<Value, Broken>
        ensures { Gives (files_at self.now.target.now self.now.dependencies place) result }
    {
        match self.target.values.as_slice().get(place) {
            Some(value) => files(alloc, &self.dependencies, value),
            None => Err(Broken::Kind(Kind::Name)),
        }
    }
}

/// A label as a value, which shares its text.
fn label_value(label: &Label) -> Result<Value, AllocError>
    ensures { IfOk result (λ v. v ≡ label_value label.now) }
{
    let text = label.shared_text().share()?;
    Ok(Value::Leaf(Leaf::Label(text)))
}

/// The place of the attribute of a name.
pub(crate) fn attribute_place(target: &Target, name: &FieldName) -> Option<usize>
    ensures { result ≡ place_named name.now (names_of target.now.rule.attributes) }
{
    target.rule.get().attributes.place(name.text())
}
