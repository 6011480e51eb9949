//! What is in scope: the names of the top level, of a function and of the comprehensions in it.

ghost use Rattle.std.specs.Prelude.{◌≡◌, ◌&&◌, ◌++◌, [], ℕ, List, IfOk, OnOk, is_none, true};
ghost use Rattle.program_tree.specs.Names.{among, apart, distinct, once, predeclared, stands_for};
ghost use Rattle.program_tree.specs.Names.{width};
ghost use Rattle.program_tree.specs.Resolved.{binding_of, global_of};
ghost use Rattle.file_syntax.specs.Scopes.{none_predeclared};
ghost use Rattle.scopes.specs.ScopeView.{entered, in_function, left};

use crate::levels::Levels;
use crate::spelt::Spelt;
use grammar::Name;
use indexmap::IndexSet;
use plain::Text;
use program_tree::{Binding, OwnSlots, predeclared_as};
use std::alloc::{AllocError, Global};
use std::marker::Model;
use std::mem;

/// Adds names behind others.
pub(crate) fn add_names<'t>(found: &mut Vec<Name<'t>>, names: &[Name<'t>]) -> Result<(), AllocError>
    ensures { OnOk result (found.new.items ≡ found.old.items ++ names.now) }
{
    for name in names {
        found.push(name.share()?)?;
    }
    Ok(())
}

/// Whether a name is none that each file finds bound.
pub fn is_free(name: &Name<'_>) -> bool
    ensures { result ≡ is_none (predeclared name.now) }
{
    predeclared_as(name.as_str()).is_none()
}

/// Whether no name is one that each file finds bound.
pub fn none_predeclared(names: &[Name<'_>]) -> bool
    ensures { result ≡ none_predeclared names.now }
{
    for name in names {
        if !is_free(name) {
            return false;
        }
    }
    true
}

/// Binds names beside those that are bound, up to the first that is bound already, and tells
/// whether there is none such.
///
/// # Errors
///
/// `AllocError` where memory was refused.
pub fn bind_anew<'t>(
    before: &mut IndexSet<Name<'t>>,
    names: &[Name<'t>],
) -> Result<bool, AllocError>
    ensures new { IfOk result (λ b. b ≡ (distinct names.now && apart names.now before.old.keys)) }
    ensures bound { IfOk result (λ b. b ≡ true → (x : List ℕ)
        → among x before.new.keys ≡ among x (names.now ++ before.old.keys)) }
{
    for name in names {
        if before.contains(name) {
            return Ok(false);
        }
        before.insert(name.share()?)?;
    }
    Ok(true)
}

/// Whether no name comes twice.
///
/// # Errors
///
/// `AllocError` where memory was refused.
pub fn are_distinct(alloc: Global, names: &[Name<'_>]) -> Result<bool, AllocError>
    ensures { IfOk result (λ b. b ≡ distinct names.now) }
{
    let mut before = IndexSet::with_capacity(alloc, names.len())?;
    let told = bind_anew(&mut before, names)?;
    Ok(told)
}

/// The texts of names.
///
/// # Errors
///
/// `AllocError` where memory was refused.
pub fn texts_of(alloc: Global, names: &[Name<'_>]) -> Result<Vec<Text>, AllocError>
    ensures { IfOk result (λ v. v.items ≡ names.now) }
{
    let mut found = Vec::with_capacity(alloc, names.len())?;
    for name in names {
        found.push(name.to_text(alloc)?)?;
    }
    Ok(found)
}

/// The texts of the names, each once.
fn texts_once(alloc: Global, names: &[Name<'_>]) -> Result<IndexSet<Text>, AllocError>
    ensures { IfOk result (λ s. s.keys ≡ once names.now) }
{
    let mut set = IndexSet::with_capacity(alloc, names.len())?;
    for name in names {
        set.insert(name.to_text(alloc)?)?;
    }
    Ok(set)
}

/// What is in scope somewhere in a file.
#[derive(Drop)]
pub struct Scope<'t> {
    globals: IndexSet<Text>,
    levels: Levels<'t>,
}

impl<'t> Model for Scope<'t> {
    ghost use Rattle.program_tree.specs.Names.{Scope as Names};

    ghost Value = { Names };

    ghost view = { λ a. record { globals = a.globals.keys; levels = a.levels } };
}

impl<'t> Scope<'t> {
    /// The scope of a top level that binds these names.
    ///
    /// # Errors
    ///
    /// `AllocError` where memory was refused.
    pub fn new(alloc: Global, names: &[Name<'t>]) -> Result<Scope<'t>, AllocError>
        ensures { IfOk result (λ s. s ≡ record { globals = once names.now; levels = [] }) }
    {
        Ok(Scope {
            globals: texts_once(alloc, names)?,
            levels: Levels::new(alloc),
        })
    }

    /// What a name stands for; None where it is bound nowhere.
    pub fn stands_for(&self, name: &Name<'t>) -> Option<Binding>
        ensures { result ≡ stands_for self.now name.now }
    {
        if let Some(slot) = self.levels.slot(name) {
            return Some(Binding::Slot(slot));
        }
        if let Some(place) = self.globals.get_index_of(Spelt::of(name)) {
            return Some(Binding::Global(place));
        }
        match predeclared_as(name.as_str()) {
            Some(what) => Some(Binding::Builtin(what)),
            None => None,
        }
    }

    /// What a name that is bound here stands for.
    pub fn binding(&self, name: &Name<'t>) -> Binding
        ensures { result ≡ binding_of self.now name.now }
    {
        self.stands_for(name).unwrap_or(Binding::Slot(0))
    }

    /// The number of a name that the top level binds.
    pub fn global(&self, name: &Name<'t>) -> usize
        ensures { result ≡ global_of self.now name.now }
    {
        self.globals.get_index_of(Spelt::of(name)).unwrap_or(0)
    }

    /// How many slots are in use.
    pub fn slots(&self) -> usize
        ensures { result ≡ width self.now.levels }
    {
        self.levels.width()
    }

    /// Goes into a comprehension that binds these names, and gives the slots that they have.
    ///
    /// # Errors
    ///
    /// `AllocError` where memory was refused.
    pub fn enter(&mut self, alloc: Global, names: &[Name<'t>]) -> Result<OwnSlots, AllocError>
        ensures entered { OnOk result (self.new ≡ entered names.now self.old) }
        ensures own { IfOk result (λ own. own ≡ record
            { first = width self.old.levels; end = width self.new.levels }) }
    {
        let first = self.slots();
        self.levels.enter(alloc, names)?;
        Ok(OwnSlots {
            first,
            end: self.slots(),
        })
    }

    /// Leaves a comprehension.
    pub fn leave(&mut self)
        ensures { self.new ≡ left self.old }
    {
        self.levels.leave();
    }

    /// Goes into a function that binds these names, and gives the levels that it came from.
    ///
    /// # Errors
    ///
    /// `AllocError` where memory was refused.
    pub fn enter_function(
        &mut self,
        alloc: Global,
        names: &[Name<'t>],
    ) -> Result<Levels<'t>, AllocError>
        ensures entered { OnOk result (self.new ≡ in_function names.now self.old) }
        ensures left { IfOk result (λ levels. levels ≡ self.old.levels) }
    {
        let levels = Levels::new(alloc).with_level(names)?;
        Ok(mem::replace(&mut self.levels, levels))
    }

    /// Goes back to the levels that a function was entered from.
    pub fn leave_function(&mut self, levels: Levels<'t>)
        ensures { self.new ≡ record { globals = self.old.globals; levels = levels.entry } }
    {
        drop(mem::replace(&mut self.levels, levels));
    }

    /// The names of the top level, by number.
    pub fn into_globals(self) -> IndexSet<Text>
        ensures { result.keys ≡ self.entry.globals }
    {
        self.globals
    }
}
