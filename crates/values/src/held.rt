//! Items and entries as cells hold them: what a walk goes over is shared with it, and not copied.
//!
//! Entries, which are wide, lie behind a count that names of one thread share. A cell owns its
//! items until the first walk over them, since most are never walked; then they go behind such a
//! count too. Both are changed where they lie while one name alone holds them, and else in a copy,
//! so that what another name holds stays as it was.
ghost use Rattle.indexmap.specs.IndexMap.{insert_entry};
ghost use Rattle.leaves.specs.Leaves.{same_key};
ghost use Rattle.values.specs.Held.{kept_items};
ghost use Rattle.std.specs.Prelude.{◌≡◌, ◌++◌, ◌∷◌, [], ◌<◌, IfOk, OnOk, OnErr, length, slice_set};

use crate::{Entries, Items, Key, MaybeLent, Operand};
use std::alloc::{AllocError, Global};
use std::marker::Model;
use std::mem::replace;
use std::rc::Rc;

/// The items of a list or a tuple, as its cell holds them.
#[derive(Drop)]
pub struct HeldItems<'a> {
    kept: KeptItems<'a>,
}

/// Where items lie: with the cell, or behind a count since the first walk.
enum KeptItems<'a> {
    Own(Items<'a>),
    Shared(Rc<Items<'a>>),
}

impl<'a> Drop for KeptItems<'a> {
    fn drop(self) {
        match self {
            KeptItems::Own(_) => {}
            KeptItems::Shared(_) => {}
        }
    }
}

impl<'a> Model for HeldItems<'a> {
    ghost use Rattle.std.specs.Prelude.{List};
    ghost use Rattle.values.specs.declared.value.Value.{Value as Held};
    ghost use Rattle.values.specs.ValueCodes.{items_code};
    ghost use Rattle.values.specs.Held.{kept_items};

    ghost Value = { List Held };

    ghost coded = { items_code };

    ghost view = { λ h. kept_items h.kept };
}

impl<'a> HeldItems<'a> {
    /// These items.
    #[inline(always)]
    pub fn new(items: Items<'a>) -> HeldItems<'a>
        ensures { result ≡ items.entry }
    {
        HeldItems {
            kept: KeptItems::Own(items),
        }
    }

    /// Another name of the same items, without a copy. The first one puts them behind a count,
    /// which no other thread sees; each one after it is a count more. They themselves stay as they
    /// were, after a refusal of memory too.
    ///
    /// # Errors
    ///
    /// `AllocError` where there is no memory for the count, or where it is at its greatest.
    pub fn share(&mut self, alloc: Global) -> Result<HeldItems<'a>, AllocError>
        ensures same { self.new ≡ self.old }
        ensures ok { IfOk result (λ h. h ≡ self.old) }
    {
        let none = KeptItems::Own(Items::new(alloc));
        let (kept, shared) = replace(&mut self.kept, none).shared(alloc);
        self.kept = kept;
        let items = shared?;
        Ok(HeldItems {
            kept: KeptItems::Shared(items),
        })
    }

    /// How many there are.
    #[inline(always)]
    pub fn len(&self) -> usize
        ensures { result ≡ length self.now }
    {
        match &self.kept {
            KeptItems::Own(items) => items.len(),
            KeptItems::Shared(items) => items.len(),
        }
    }

    /// All of them, in order.
    #[inline(always)]
    pub fn as_slice(&self) -> &[Operand<'a>]
        ensures { result.now ≡ self.now }
    {
        match &self.kept {
            KeptItems::Own(items) => items.as_slice(),
            KeptItems::Shared(items) => items.as_slice(),
        }
    }

    /// Puts an item last. After a refusal of memory they are as they were.
    ///
    /// # Errors
    ///
    /// `AllocError` where memory was refused; or, where another name holds them and they are
    /// copied, a count is at its greatest.
    #[inline(always)]
    pub fn push(&mut self, value: Operand<'a>) -> Result<(), AllocError>
        ensures ok { OnOk result (self.new ≡ self.old ++ value.entry ∷ []) }
        ensures err { OnErr result (self.new ≡ self.old) }
    {
        match &mut self.kept {
            KeptItems::Own(items) => items.push(value),
            KeptItems::Shared(items) => Rc::make_mut(items)?.push(value),
        }
    }

    /// Puts the items of another after these. After a refusal of memory these are as they were.
    ///
    /// # Errors
    ///
    /// `AllocError` where memory was refused; or, where another name holds them and they are
    /// copied, a count is at its greatest.
    pub fn append(&mut self, more: Items<'a>) -> Result<(), AllocError>
        ensures ok { OnOk result (self.new ≡ self.old ++ more.entry) }
        ensures err { OnErr result (self.new ≡ self.old) }
    {
        match &mut self.kept {
            KeptItems::Own(items) => items.append(more),
            KeptItems::Shared(items) => Rc::make_mut(items)?.append(more),
        }
    }

    /// Sets the item at a place. After a refusal of memory they are as they were.
    ///
    /// # Errors
    ///
    /// `AllocError` where another name holds them, and memory for a copy was refused or a count is
    /// at its greatest.
    pub fn set(&mut self, place: usize, value: Operand<'a>) -> Result<(), AllocError>
        requires { place < length self.old }
        ensures ok { OnOk result (self.new ≡ slice_set self.old place value.entry) }
        ensures err { OnErr result (self.new ≡ self.old) }
    {
        match &mut self.kept {
            KeptItems::Own(items) => items.set(place, value),
            KeptItems::Shared(items) => Rc::make_mut(items)?.set(place, value),
        }
        Ok(())
    }
}

impl<'a> KeptItems<'a> {
    /// These behind a count, and another name of them. After a refusal they are as they were, or
    /// behind a count.
    fn shared(self, alloc: Global) -> (KeptItems<'a>, Result<Rc<Items<'a>>, AllocError>)
        ensures same { kept_items result.0 ≡ kept_items self.entry }
        ensures ok { IfOk result.1 (λ items. items.value ≡ kept_items self.entry) }
    {
        let items = match self {
            KeptItems::Shared(items) => items,
            KeptItems::Own(items) => match Rc::new(alloc, items) {
                Ok(items) => items,
                Err(refused) => return (KeptItems::Own(refused.value), Err(AllocError)),
            },
        };
        let another: Result<Rc<Items<'a>>, AllocError> = items.clone();
        (KeptItems::Shared(items), another)
    }
}

/// The entries of a dict, as its cell holds them.
#[derive(Drop)]
pub struct HeldEntries<'a> {
    entries: Rc<Entries<'a>>,
}

impl<'a> Model for HeldEntries<'a> {
    ghost use Rattle.std.specs.Prelude.{List};
    ghost use Rattle.values.specs.declared.value.Value.{Value as Held};
    ghost use Rattle.keys.specs.declared.key.Key.{Key as Index};
    ghost use Rattle.values.specs.ValueCodes.{entries_code};

    ghost Value = { List (Index × Held) };

    ghost coded = { entries_code };

    ghost view = { λ h. h.entries.value };
}

impl<'a> HeldEntries<'a> {
    /// These entries.
    ///
    /// # Errors
    ///
    /// `AllocError` where memory was refused.
    pub fn new(alloc: Global, entries: Entries<'a>) -> Result<HeldEntries<'a>, AllocError>
        ensures { IfOk result (λ h. h ≡ entries.entry) }
    {
        let entries = Rc::new(alloc, entries)?;
        Ok(HeldEntries { entries })
    }

    /// Another name of the same entries: a count more, which no other thread sees, and no copy.
    ///
    /// # Errors
    ///
    /// `AllocError` where a count is at its greatest.
    pub fn share(&self) -> Result<HeldEntries<'a>, AllocError>
        ensures { IfOk result (λ h. h ≡ self.now) }
    {
        let entries = self.entries.clone()?;
        Ok(HeldEntries { entries })
    }

    /// All of them.
    #[inline(always)]
    pub fn get(&self) -> &Entries<'a>
        ensures { result.now ≡ self.now }
    {
        &self.entries
    }

    /// Gives the key the value: a key that is there keeps its place. After a refusal of memory they
    /// are as they were.
    ///
    /// # Errors
    ///
    /// `AllocError` where memory was refused; or, where another name holds them and they are
    /// copied, a count is at its greatest.
    pub fn put(&mut self, key: MaybeLent<'a, Key>, value: Operand<'a>) -> Result<(), AllocError>
        ensures ok { OnOk result (self.new
            ≡ insert_entry same_key self.old key.entry value.entry) }
        ensures err { OnErr result (self.new ≡ self.old) }
    {
        Rc::make_mut(&mut self.entries)?.put(key, value)
    }
}

/// What a walk over a cell goes over, shared with the cell.
#[derive(Drop)]
pub enum Walked<'a> {
    /// The items of a list or a tuple.
    Items(HeldItems<'a>),
    /// The entries of a dict, whose keys are walked.
    Entries(HeldEntries<'a>),
    /// Nothing: an instance isn't walked, and no more is a cell that isn't there.
    Nothing,
}
