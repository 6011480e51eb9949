//! The dependencies of a target, as its implementation has them.
ghost use Rattle.std.specs.Prelude.{◌≡◌, ◌<◌, IfOk, OnOk, length, option_map, slice_get, Some};
ghost use Rattle.workspace.specs.Labels.{same_label};
ghost use Rattle.analysis.specs.Seen.{dependency_seen, dependencies_seen};
ghost use Rattle.contexts.specs.Fields.{place_of};
ghost use Rattle.contexts.specs.Offered.{instances, instances_at};
ghost use Rattle.contexts.specs.Placed.{key_label, ArePlaced, HasFirst};

use analysis::Dependency;
use indexmap::IndexMap;
use operations::DefaultInfo;
use std::alloc::{AllocError, Global};
use std::marker::Model;
use targets::Outcome;
use values::Frozen;
use workspace::Label;

/// Up to so many dependencies are gone through; more are found by hash.
pub(crate) const FEW: usize = 8;

/// A label by which a dependency is found: its package and its name.
type PlaceKey<'a> = (&'a str, &'a str);

/// The dependencies of a target with their outcomes, each found by its place and by its label; and
/// `DefaultInfo`. Few are found by going through them, which takes no memory.
#[derive(Drop)]
pub struct Dependencies<'a> {
    all: &'a [Dependency<'a>],
    /// The first place of each label, where there are many.
    places: IndexMap<PlaceKey<'a>, usize>,
    info: &'a DefaultInfo,
}

impl<'a> Model for Dependencies<'a> {
    ghost use Rattle.std.specs.Prelude.{◌≡◌, List, ◌<◌, length};
    ghost use Rattle.targets.specs.Checks.{Dependency as Depends};
    ghost use Rattle.analysis.specs.Seen.{dependencies_seen};
    ghost use Rattle.contexts.specs.Placed.{ArePlaced};
    ghost use Rattle.contexts.specs.declared.dependencies.TheConstants.{FEW};

    ghost Value = { List Depends };

    ghost use Rattle.std.specs.Coded.{codes};
    ghost use Rattle.targets.specs.contracts.outcome.Outcome as outcome;

    ghost coded = { Prim.hlevel (codes, outcome.the_row.coded) };

    ghost view = { λ d. dependencies_seen d.all.now };

    ghost invariant = { λ d. FEW < length d.all.now
        → ArePlaced (dependencies_seen d.all.now) d.places };
}

impl<'a> Dependencies<'a> {
    /// These dependencies. Where they are many, the place of each label is noted once.
    ///
    /// # Errors
    ///
    /// `AllocError` where memory was refused.
    pub fn new(
        alloc: Global,
        all: &'a [Dependency<'a>],
        info: &'a DefaultInfo,
    ) -> Result<Dependencies<'a>, AllocError>
        ensures { IfOk result (λ d. d ≡ dependencies_seen all.now) }
    {
        let places = places_of_many(alloc, all)?;
        Ok(Dependencies { all, places, info })
    }

    /// The provider `DefaultInfo`.
    pub(crate) fn info(&self) -> &'a DefaultInfo {
        self.info
    }

    /// The dependency at a place.
    pub(crate) fn at(&self, place: usize) -> Option<&'a Dependency<'a>>
        ensures { option_map (λ d. dependency_seen d.now) result ≡ slice_get self.now place }
    {
        self.all.get(place)
    }

    /// The instances that the target at a place offers, where they lie.
    pub(crate) fn instances(&self, place: usize) -> &'a [Frozen]
        ensures { result.now ≡ instances_at (slice_get self.now place) }
    {
        let Some(dependency) = self.at(place) else {
            return &[];
        };
        match dependency.outcome {
            Outcome::Source(file) => std::slice::from_ref(file.info()),
            Outcome::Done(providers, _) => providers.as_slice(),
            Outcome::Failed(_) => &[],
        }
    }

    /// The first place of a label among them; past all of them where it is none of theirs.
    pub(crate) fn place(&self, label: &'a Label) -> usize
        ensures { result ≡ place_of self.now label.now }
    {
        if self.all.len() <= FEW {
            return place_among(self.all, label);
        }
        match self.places.get(&place_key(label)) {
            Some(place) => *place,
            None => self.all.len(),
        }
    }
}

/// The package and the name of a label.
fn place_key(label: &Label) -> PlaceKey<'_>
    ensures { key_label result ≡ label.now }
{
    (label.package(), label.name())
}

/// Whether two labels have one package and one name.
fn is_same(a: &Label, b: &Label) -> bool
    ensures { result ≡ same_label a.now b.now }
{
    a.package() == b.package() && a.name() == b.name()
}

/// The first place of a label among dependencies, by going through them; past all of them where it
/// is none of theirs.
fn place_among(all: &[Dependency<'_>], label: &Label) -> usize
    ensures { result ≡ place_of (dependencies_seen all.now) label.now }
{
    for (place, one) in all.iter().enumerate() {
        if is_same(label, one.label.get()) {
            return place;
        }
    }
    all.len()
}

/// The first place of each label, where there are many; else nothing.
fn places_of_many<'a>(
    alloc: Global,
    all: &'a [Dependency<'a>],
) -> Result<IndexMap<PlaceKey<'a>, usize>, AllocError>
    ensures { IfOk result
        (λ places. FEW < length all.now → ArePlaced (dependencies_seen all.now) places) }
{
    if all.len() <= FEW {
        return Ok(IndexMap::new(alloc));
    }
    places(alloc, all)
}

/// The first place of each label.
fn places<'a>(
    alloc: Global,
    all: &'a [Dependency<'a>],
) -> Result<IndexMap<PlaceKey<'a>, usize>, AllocError>
    ensures { IfOk result (λ places. ArePlaced (dependencies_seen all.now) places) }
{
    let mut places = IndexMap::with_capacity(alloc, all.len())?;
    for (place, one) in all.iter().enumerate().rev() {
        put(one.label.get(), place, &mut places)?;
    }
    Ok(places)
}

/// Puts the place of a label, in place of a later one.
fn put<'a>(
    label: &'a Label,
    place: usize,
    places: &mut IndexMap<PlaceKey<'a>, usize>,
) -> Result<(), AllocError>
    ensures { OnOk result (HasFirst label.now place places.old places.new) }
{
    places.insert(place_key(label), place)?;
    Ok(())
}
