//! Which actions are equal: each gets the place of the first that is equal to it.
ghost use Rattle.std.specs.Prelude.{◌≡◌, ◌++◌, ◌∷◌, [], None, true, IfOk, OnOk, slice_index_or};
ghost use Rattle.depsets.specs.Listed.{walked};
ghost use Rattle.claims.specs.Leaders.{first_in, known_in, leaders_from, next_firsts, next_leader};
ghost use Rattle.claims.specs.Leaders.{with_first};
ghost use Rattle.claims.specs.Same.{compared};
ghost use Rattle.claims.specs.Seen.{parts_of};

use crate::comparable::{Comparable, parts};
use crate::owned::Owned;
use indexmap::IndexMap;
use std::alloc::{AllocError, Global};
use std::marker::Model;

/// What was compared so far, each once, with the place where it stood first.
#[derive(Drop)]
struct Firsts {
    places: IndexMap<Comparable, usize>,
}

impl Model for Firsts {
    ghost use Rattle.claims.specs.Leaders.{Firsts as Noted};
    ghost use Rattle.claims.specs.Seen.{noted};

    ghost Value = { Noted };

    ghost view = { λ f. noted f.places.entries };
}

impl Firsts {
    /// The place where these parts stood first, if they were noted.
    fn known(&self, parts: &Comparable) -> Option<usize>
        ensures { result ≡ known_in self.now (parts_of parts.now) }
    {
        self.places.get(parts).copied()
    }

    /// Notes parts that are new, with their place.
    fn note(&mut self, parts: Comparable, place: usize) -> Result<(), AllocError>
        requires new { known_in self.old (parts_of parts) ≡ None }
        ensures { OnOk result (self.new ≡ self.old ++ (parts_of parts, place) ∷ []) }
    {
        self.places.insert(parts, place)?;
        Ok(())
    }

    /// The place where these parts stood first, which is this one if they are new.
    fn first(&mut self, parts: Comparable, place: usize) -> Result<usize, AllocError>
        ensures place { IfOk result (λ n. n ≡ first_in self.old (parts_of parts) place) }
        ensures noted { OnOk result (self.new ≡ with_first self.old (parts_of parts) place) }
    {
        match self.known(&parts) {
            Some(first) => Ok(first),
            None => {
                self.note(parts, place)?;
                Ok(place)
            }
        }
    }

    /// The place of the first that is equal to this action, where only those that are marked may be
    /// equal to others.
    fn leader(
        &mut self,
        alloc: Global,
        owned: &Owned<'_>,
        place: usize,
        marked: bool,
    ) -> Result<usize, AllocError>
        ensures place { IfOk result
            (λ n. n ≡ next_leader self.old marked (compared walked owned.now.action) place) }
        ensures noted { OnOk result
            (self.new ≡ next_firsts self.old marked (compared walked owned.now.action) place) }
    {
        if !marked {
            return Ok(place);
        }
        let parts = parts(alloc, owned.action())?;
        self.first(parts, place)
    }
}

/// Whether the action at a place is marked.
fn is_marked(marks: &[bool], place: usize) -> bool
    ensures { result ≡ slice_index_or marks.now place true }
{
    match marks.get(place) {
        Some(mark) => *mark,
        None => true,
    }
}

/// The leader of each action, where only those that are marked may be equal to others.
pub(crate) fn leaders(
    alloc: Global,
    owned: &[Owned<'_>],
    marks: &[bool],
) -> Result<Vec<usize>, AllocError>
    ensures { IfOk result (λ v. v.items ≡ leaders_from walked marks.now [] 0 owned.now) }
{
    let mut firsts = Firsts {
        places: IndexMap::new(alloc),
    };
    let mut leaders = Vec::new(alloc);
    for (place, one) in owned.iter().enumerate() {
        let leader = firsts.leader(alloc, one, place, is_marked(marks, place))?;
        leaders.push(leader)?;
    }
    Ok(leaders)
}
