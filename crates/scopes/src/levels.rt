//! The slots of a function and of the comprehensions in it.

ghost use Rattle.std.specs.Prelude.{◌≡◌, ◌≤◌, ◌∷◌, [], List, IfOk, OnOk, bytes_eq, drop, length};
ghost use Rattle.std.specs.Prelude.{take};
ghost use Rattle.std.specs.Map.{set_value};
ghost use Rattle.indexmap.specs.IndexSet.{insert_key};
ghost use Rattle.program_tree.specs.Names.{Name as OfName, once, slot_of, width};
ghost use Rattle.scopes.specs.ScopeView.{AreLevel, HasSlots, names_in, outer};

use grammar::Name;
use indexmap::IndexMap;
use std::alloc::{AllocError, Global};
use std::marker::Model;
use std::mem;

/// A name of a level, and the slot that it has around that level.
#[derive(Drop)]
struct BoundName<'t> {
    name: Name<'t>,
    around: Option<usize>,
}

/// Levels of names, of which each name has a slot: those of a function, and of each comprehension
/// around. To a contract the innermost level is the first.
#[derive(Drop)]
pub struct Levels<'t> {
    /// The names of all levels, those of the innermost last: each stands at the place that is its
    /// slot.
    bound: Vec<BoundName<'t>>,
    /// Where each level begins, the innermost last.
    starts: Vec<usize>,
    /// The slot of each name; None of one whose levels were left.
    slots: IndexMap<Name<'t>, Option<usize>>,
}

impl<'t> Model for Levels<'t> {
    ghost use Rattle.std.specs.Prelude.{List, map, reverse};
    ghost use Rattle.program_tree.specs.Names.{Name};
    ghost use Rattle.scopes.specs.ScopeView.{AllKnowAround, HasSlots, IsCut, names_in, parts};

    ghost Value = { List (List Name) };

    ghost view = { λ l. map names_in (parts (reverse l.starts.items) l.bound.items) };

    ghost invariant = { λ l. IsCut (reverse l.starts.items) l.bound.items
        × HasSlots l.slots.entries (map names_in (parts (reverse l.starts.items) l.bound.items))
        × AllKnowAround (parts (reverse l.starts.items) l.bound.items) };
}

/// Sets the slot of a name, if it is in the map.
fn set_slot<'t>(slots: &mut IndexMap<Name<'t>, Option<usize>>, name: &Name<'t>, slot: Option<usize>)
    ensures { slots.new.entries ≡ set_value (bytes_eq name.now) slots.old.entries slot }
{
    if let Some(place) = slots.get_mut(name) {
        *place = slot;
    }
}

/// Gives the names of a level the slots that they have around it.
fn restore<'t>(slots: &mut IndexMap<Name<'t>, Option<usize>>, level: &[BoundName<'t>])
    ensures { (ls : List (List OfName)) → AreLevel slots.old.entries level.now ls
        → HasSlots slots.new.entries ls }
{
    for bound in level {
        set_slot(slots, &bound.name, bound.around);
    }
}

/// Binds a name in the innermost level, which begins at this place. One that the level has already
/// keeps its slot.
fn bind<'t>(
    slots: &mut IndexMap<Name<'t>, Option<usize>>,
    bound: &mut Vec<BoundName<'t>>,
    first: usize,
    name: &Name<'t>,
) -> Result<(), AllocError>
    ensures { OnOk result ((ls : List (List OfName)) → width ls ≡ first
        → first ≤ length bound.old.items
        → AreLevel slots.old.entries (drop first bound.old.items) ls
        → (names_in (drop first bound.new.items)
        ≡ insert_key bytes_eq (names_in (drop first bound.old.items)) name.now)
        × AreLevel slots.new.entries (drop first bound.new.items) ls
        × (take first bound.new.items ≡ take first bound.old.items)
        × (first ≤ length bound.new.items)) }
{
    let slot = bound.len();
    let around = slots.insert(name.share()?, Some(slot))?.flatten();
    if let Some(before) = around {
        if before >= first {
            set_slot(slots, name, around);
            return Ok(());
        }
    }
    bound.push(BoundName {
        name: name.share()?,
        around,
    })?;
    Ok(())
}

/// Binds these names in a new level, each once. The map has their slots then.
fn bind_all<'t>(
    slots: &mut IndexMap<Name<'t>, Option<usize>>,
    bound: &mut Vec<BoundName<'t>>,
    names: &[Name<'t>],
) -> Result<(), AllocError>
    ensures { OnOk result ((ls : List (List OfName)) → width ls ≡ length bound.old.items
        → HasSlots slots.old.entries ls
        → (names_in (drop (length bound.old.items) bound.new.items) ≡ once names.now)
        × AreLevel slots.new.entries (drop (length bound.old.items) bound.new.items) ls
        × (take (length bound.old.items) bound.new.items ≡ bound.old.items)
        × (length bound.old.items ≤ length bound.new.items)) }
{
    slots.reserve(names.len())?;
    bound.reserve(names.len())?;
    let first = bound.len();
    for name in names {
        bind(slots, bound, first, name)?;
    }
    Ok(())
}

impl<'t> Levels<'t> {
    /// No level, as at the top level of a file.
    pub(crate) fn new(alloc: Global) -> Levels<'t>
        ensures { result ≡ [] }
    {
        Levels {
            bound: Vec::new(alloc),
            starts: Vec::new(alloc),
            slots: IndexMap::new(alloc),
        }
    }

    /// How many slots there are.
    pub(crate) fn width(&self) -> usize
        ensures { result ≡ width self.now }
    {
        self.bound.len()
    }

    /// The slot of a name: of the innermost level that has it. However many levels there are, it is
    /// one look-up.
    pub(crate) fn slot(&self, name: &Name<'t>) -> Option<usize>
        ensures { result ≡ slot_of name.now self.now }
    {
        if self.bound.len() == 0 {
            return None;
        }
        self.slots.get(name).copied().flatten()
    }

    /// These levels, and inside of them one of these names, each once.
    pub(crate) fn with_level(self, names: &[Name<'t>]) -> Result<Levels<'t>, AllocError>
        ensures { IfOk result (λ l. l ≡ once names.now ∷ self.entry) }
    {
        let Levels {
            mut bound,
            mut starts,
            mut slots,
        } = self;
        starts.push(bound.len())?;
        bind_all(&mut slots, &mut bound, names)?;
        Ok(Levels {
            bound,
            starts,
            slots,
        })
    }

    /// Goes into a level of these names, each once. After a refusal of memory there is no level.
    pub(crate) fn enter(&mut self, alloc: Global, names: &[Name<'t>]) -> Result<(), AllocError>
        ensures { OnOk result (self.new ≡ once names.now ∷ self.old) }
    {
        let around = mem::replace(self, Levels::new(alloc));
        let inside = around.with_level(names)?;
        drop(mem::replace(self, inside));
        Ok(())
    }

    /// Leaves the innermost level.
    pub(crate) fn leave(&mut self)
        ensures { self.new ≡ outer self.old }
    {
        if let Some(start) = self.starts.pop() {
            restore(&mut self.slots, &self.bound[start..]);
            self.bound.truncate(start);
        }
    }
}
