//! Cells: what names share. Their items, entries and fields are lists to a contract.
ghost use Rattle.indexmap.specs.IndexMap.{insert_entry};
ghost use Rattle.std.specs.Map.{lookup};
ghost use Rattle.leaves.specs.Leaves.{same_key};
ghost use Rattle.values.specs.Keyed.{has_key, AreDistinct};
ghost use Rattle.values.specs.Visits.{keys_as_values, keys_of, values_of};
ghost use Rattle.std.specs.Prelude.{◌≡◌, ◌++◌, ◌∷◌, [], ◌<◌, IfOk, OnOk, OnErr, length, slice_get};
ghost use Rattle.std.specs.Prelude.{slice_set, option_copied, MatchOption, ◌≤◌, Some};

use crate::held::{HeldEntries, HeldItems};
use crate::{Key, MaybeLent, Operand, Provider};
use indexmap::{IndexMap, IndexSet};
use plain::{Shared, push_last};
use std::alloc::{AllocError, Global};
use std::marker::Model;

/// How many parts a list, a tuple or a dict has at most. (This project's own limit.)
pub const LARGEST: usize = 1_048_576;

/// A cell: a list or a dict with the number of walks over it that go on, or a tuple or an instance,
/// which never changes. An instance has its fields by the places of their names in the provider.
pub enum Cell<'a> {
    List(HeldItems<'a>, u64),
    Tuple(HeldItems<'a>),
    Dict(HeldEntries<'a>, u64),
    Instance(Shared<Provider>, Fields<'a>),
}

/// The items of a list or a tuple.
#[derive(Drop)]
pub struct Items<'a> {
    items: Vec<Operand<'a>>,
}

impl<'a> Model for Items<'a> {
    ghost use Rattle.std.specs.Prelude.{List};
    ghost use Rattle.values.specs.declared.value.Value.{Value as Held};
    ghost use Rattle.values.specs.ValueCodes.{items_code};

    ghost Value = { List Held };

    ghost coded = { items_code };

    ghost view = { λ i. i.items.items };
}

impl<'a> Items<'a> {
    /// No items.
    pub fn new(alloc: Global) -> Items<'a>
        ensures { result ≡ [] }
    {
        Items {
            items: Vec::new(alloc),
        }
    }

    /// No items, with memory for so many.
    ///
    /// # Errors
    ///
    /// `AllocError` where memory was refused.
    pub fn with_capacity(alloc: Global, items: usize) -> Result<Items<'a>, AllocError>
        ensures { IfOk result (λ i. i ≡ []) }
    {
        let items = Vec::with_capacity(alloc, items)?;
        Ok(Items { items })
    }

    /// How many there are.
    #[inline(always)]
    pub fn len(&self) -> usize
        ensures { result ≡ length self.now }
    {
        self.items.len()
    }

    /// All of them, in order.
    #[inline(always)]
    pub fn as_slice(&self) -> &[Operand<'a>]
        ensures { result.now ≡ self.now }
    {
        self.items.as_slice()
    }

    /// Puts the items of another after these. After a refusal of memory these are as they were.
    ///
    /// # Errors
    ///
    /// `AllocError` where memory was refused.
    pub fn append(&mut self, more: Items<'a>) -> Result<(), AllocError>
        ensures ok { OnOk result (self.new ≡ self.old ++ more.entry) }
        ensures err { OnErr result (self.new ≡ self.old) }
    {
        let mut more = more.items;
        self.items.append(&mut more)?;
        Ok(())
    }

    /// Sets the item at a place.
    pub fn set(&mut self, place: usize, value: Operand<'a>)
        requires { place < length self.old }
        ensures { self.new ≡ slice_set self.old place value.entry }
    {
        self.items[place] = value;
    }

    /// Puts an item last. After a refusal of memory they are as they were.
    ///
    /// # Errors
    ///
    /// `AllocError` where memory was refused.
    #[inline(always)]
    pub fn push(&mut self, value: Operand<'a>) -> Result<(), AllocError>
        ensures ok { OnOk result (self.new ≡ self.old ++ value.entry ∷ []) }
        ensures err { OnErr result (self.new ≡ self.old) }
    {
        push_last(&mut self.items, value)
    }
}

impl<'a> Clone for Items<'a> {
    ghost is_clone = { λ i j. j ≡ i };

    fn clone(&self) -> Result<Items<'a>, AllocError> {
        let items = self.items.clone()?;
        Ok(Items { items })
    }
}

/// The fields of an instance, by the places of their names in the provider: None for each that
/// wasn't given.
#[derive(Drop)]
pub struct Fields<'a> {
    fields: Vec<Option<Operand<'a>>>,
}

impl<'a> Model for Fields<'a> {
    ghost use Rattle.std.specs.Prelude.{List, Option};
    ghost use Rattle.values.specs.declared.value.Value.{Value as Held};
    ghost use Rattle.values.specs.ValueCodes.{fields_code};

    ghost Value = { List (Option Held) };

    ghost coded = { fields_code };

    ghost view = { λ f. f.fields.items };
}

impl<'a> Fields<'a> {
    /// No fields, with memory for so many.
    ///
    /// # Errors
    ///
    /// `AllocError` where memory was refused.
    #[inline(always)]
    pub fn with_capacity(alloc: Global, fields: usize) -> Result<Fields<'a>, AllocError>
        ensures { IfOk result (λ f. f ≡ []) }
    {
        let fields = Vec::with_capacity(alloc, fields)?;
        Ok(Fields { fields })
    }

    /// Puts the value of the next field, or None. After a refusal of memory they are as they were.
    ///
    /// # Errors
    ///
    /// `AllocError` where memory was refused.
    #[inline(always)]
    pub fn push(&mut self, value: Option<Operand<'a>>) -> Result<(), AllocError>
        ensures ok { OnOk result (self.new ≡ self.old ++ value.entry ∷ []) }
        ensures err { OnErr result (self.new ≡ self.old) }
    {
        push_last(&mut self.fields, value)
    }

    /// Sets the value of the field at a place.
    pub fn set(&mut self, place: usize, value: Option<Operand<'a>>)
        requires { place < length self.old }
        ensures { self.new ≡ slice_set self.old place value.entry }
    {
        self.fields[place] = value;
    }

    /// All of them, in order.
    pub fn as_slice(&self) -> &[Option<Operand<'a>>]
        ensures { result.now ≡ self.now }
    {
        self.fields.as_slice()
    }
}

/// The entries of a dict, in order of insertion, with hashed looks.
#[derive(Drop)]
pub struct Entries<'a> {
    map: IndexMap<MaybeLent<'a, Key>, Operand<'a>>,
}

impl<'a> Model for Entries<'a> {
    ghost use Rattle.std.specs.Prelude.{List};
    ghost use Rattle.values.specs.declared.value.Value.{Value as Held};
    ghost use Rattle.keys.specs.declared.key.Key.{Key as Index};
    ghost use Rattle.values.specs.ValueCodes.{entries_code};

    ghost Value = { List (Index × Held) };

    ghost coded = { entries_code };

    ghost view = { λ e. e.map.entries };
}

impl<'a> Entries<'a> {
    /// No entries, with memory for so many.
    ///
    /// # Errors
    ///
    /// `AllocError` where memory was refused.
    pub fn with_capacity(alloc: Global, entries: usize) -> Result<Entries<'a>, AllocError>
        ensures { IfOk result (λ e. e ≡ []) }
    {
        let map = IndexMap::with_capacity(alloc, entries)?;
        Ok(Entries { map })
    }

    /// Gives the key the value: a key that is there keeps its place. After a refusal of memory they
    /// are as they were.
    ///
    /// # Errors
    ///
    /// `AllocError` where memory was refused.
    pub fn put(&mut self, key: MaybeLent<'a, Key>, value: Operand<'a>) -> Result<(), AllocError>
        ensures ok { OnOk result (self.new
            ≡ insert_entry same_key self.old key.entry value.entry) }
        ensures err { OnErr result (self.new ≡ self.old) }
    {
        self.map.insert(key, value)?;
        Ok(())
    }

    /// The value of the key, if there is one.
    pub fn get(&self, key: &Key) -> Option<&Operand<'a>>
        ensures { option_copied result ≡ lookup (same_key key.now) self.now }
    {
        self.map.get(key)
    }

    /// Whether the key is there.
    pub fn has(&self, key: &Key) -> bool
        ensures { result ≡ has_key self.now key.now }
    {
        self.map.get(key).is_some()
    }

    /// The key and the value at a place, by order of insertion.
    pub fn at(&self, place: usize) -> Option<(&Key, &Operand<'a>)>
        ensures { MatchOption result (length self.now ≤ place)
            (λ e. slice_get self.now place ≡ Some (e.0.now, e.1.now)) }
    {
        let (key, value) = self.map.get_index(place)?;
        Some((key.get(), value))
    }

    /// The key at a place as a value, for what holds it: no count where it is lent, and else at
    /// most one.
    ///
    /// # Errors
    ///
    /// `AllocError` where a count is at its greatest.
    #[tactic(auto, using(crate::proofs::KeyListLemmas::key_value_of_entry))]
    #[inline(always)]
    pub fn key_at(&self, place: usize) -> Result<Operand<'a>, AllocError>
        requires { place < length self.now }
        ensures { IfOk result (λ o. slice_get (keys_as_values self.now) place ≡ Some o) }
    {
        match self.map.get_index(place) {
            Some((key, _)) => key.operand(),
            None => unreachable!(),
        }
    }

    /// The value at a place, for what holds it: no count where it is lent, and else at most one.
    ///
    /// # Errors
    ///
    /// `AllocError` where a count is at its greatest.
    #[tactic(auto, using(crate::proofs::KeyListLemmas::value_of_entry))]
    pub fn value_at(&self, place: usize) -> Result<Operand<'a>, AllocError>
        requires { place < length self.now }
        ensures { IfOk result (λ o. slice_get (values_of self.now) place ≡ Some o) }
    {
        match self.map.get_index(place) {
            Some((_, value)) => value.share(),
            None => unreachable!(),
        }
    }

    /// How many there are.
    pub fn len(&self) -> usize
        ensures { result ≡ length self.now }
    {
        self.map.len()
    }

    /// How many there are. No two have one key.
    pub fn distinct_len(&self) -> usize
        ensures len { result ≡ length self.now }
        ensures distinct { AreDistinct (keys_of self.now) }
    {
        self.map.len()
    }

    /// The keys alone, in order.
    ///
    /// # Errors
    ///
    /// `AllocError` where memory was refused, or where a count is at its greatest.
    pub fn keys(&self, alloc: Global) -> Result<IndexSet<Key>, AllocError>
        ensures { IfOk result (λ s. s.keys ≡ keys_of self.now) }
    {
        let entries = self.map.as_slice();
        let mut keys = IndexSet::with_capacity(alloc, entries.len())?;
        for i in 0..entries.len() {
            let Some((key, _)) = entries.get_index(i) else {
                return Ok(keys);
            };
            let key = key.get().share()?;
            keys.insert(key)?;
        }
        Ok(keys)
    }
}

impl<'a> Clone for Entries<'a> {
    ghost is_clone = { λ e f. f ≡ e };

    fn clone(&self) -> Result<Entries<'a>, AllocError> {
        let map = self.map.clone()?;
        Ok(Entries { map })
    }
}

impl<'a> Drop for Cell<'a> {
    #[inline(always)]
    fn drop(self) {
        match self {
            Cell::List(_, _) => {}
            Cell::Tuple(_) => {}
            Cell::Dict(_, _) => {}
            Cell::Instance(_, _) => {}
        }
    }
}
