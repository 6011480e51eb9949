//! Dicts of strings.
ghost use Rattle.std.specs.Prelude.{◌≡◌, [], IfOk, MatchOption, None, Some};
ghost use Rattle.values.specs.Keyed.{AreDistinct};
ghost use Rattle.values.specs.Seeing.{seen, table_entries};
ghost use Rattle.values.specs.Tree.{branch};
ghost use Rattle.values.specs.Visits.{keys_of};
ghost use Rattle.targets.specs.RuleCalls.{each_of};
ghost use Rattle.targets.specs.TextDicts.{text_entry, value_shown, value_frozen, dict_of_texts};

use crate::text_list::text_seen;
use heap::Heap;
use indexmap::IndexSet;
use plain::Text;
use std::alloc::{AllocError, Global};
use std::marker::Model;
use values::{Branch, Frozen, Key, Seen, Table};

/// A key and its value, both strings, as a contract speaks of them.
#[derive(Drop)]
struct TextEntry {
    key: Text,
    value: Text,
}

/// A dict whose keys and values are strings, as the frozen dict that whoever reads it is lent: to a
/// contract its entries in order. No two have one key.
#[derive(Drop)]
pub struct TextDict {
    tree: Frozen,
}

impl Model for TextDict {
    ghost use Rattle.std.specs.Prelude.{List, ◌≡◌};
    ghost use Rattle.values.specs.Tree.{branch};
    ghost use Rattle.targets.specs.declared.text_dict.TextEntry.{TextEntry as Entry};
    ghost use Rattle.targets.specs.TextDicts.{AreEntries, text_entries_in, dict_of_texts};

    ghost Value = { List Entry };

    ghost view = { λ d. text_entries_in d.tree };

    ghost invariant = { λ d. (d.tree ≡ branch (dict_of_texts (text_entries_in d.tree)))
        × AreEntries (text_entries_in d.tree) };
}

impl TextDict {
    /// No entries.
    ///
    /// # Errors
    ///
    /// `AllocError` where memory was refused.
    pub fn new(alloc: Global) -> Result<TextDict, AllocError>
        ensures { IfOk result (λ d. d ≡ []) }
    {
        let keys = IndexSet::with_capacity(alloc, 0)?;
        let dict = Branch::dict(alloc, keys, Vec::new(alloc))?;
        Ok(TextDict {
            tree: Frozen::of_branch(dict),
        })
    }

    /// A dict of the heap, or a frozen one, whose keys and values are strings; None where one is no
    /// string.
    ///
    /// # Errors
    ///
    /// `AllocError` where memory was refused.
    pub fn read<'b>(
        alloc: Global,
        heap: &'b Heap,
        table: Table<'b, '_>,
    ) -> Result<Option<TextDict>, AllocError>
        ensures { IfOk result
            (λ o. o ≡ each_of (text_entry heap.now) (table_entries table.entry)) }
    {
        let Some(values) = values_in(alloc, heap, table)? else {
            return Ok(None);
        };
        let dict = Branch::dict(alloc, keys_in(alloc, table)?, values)?;
        Ok(Some(TextDict {
            tree: Frozen::of_branch(dict),
        }))
    }

    /// It, as a frozen dict.
    pub fn tree(&self) -> &Frozen
        ensures { result.now ≡ branch (dict_of_texts self.now) }
    {
        &self.tree
    }
}

/// The keys of a dict, in order.
fn keys_in(alloc: Global, table: Table<'_, '_>) -> Result<IndexSet<Key>, AllocError>
    ensures keys { IfOk result (λ s. s.keys ≡ keys_of (table_entries table.entry)) }
    ensures distinct { AreDistinct (keys_of (table_entries table.entry)) }
{
    let count = table.distinct_len();
    let mut keys = IndexSet::with_capacity(alloc, count)?;
    for place in 0..count {
        let Some((key, _)) = table.at(place) else {
            return Ok(keys);
        };
        keys.insert(key.share()?)?;
    }
    Ok(keys)
}

/// The values of a dict, frozen; None where one, or its key, is no string.
fn values_in<'b>(
    alloc: Global,
    heap: &'b Heap,
    table: Table<'b, '_>,
) -> Result<Option<Vec<Frozen>>, AllocError>
    ensures { IfOk result (λ o. MatchOption o
        (each_of (value_frozen heap.now) (table_entries table.entry) ≡ None)
        (λ ts. each_of (value_frozen heap.now) (table_entries table.entry) ≡ Some ts.items)) }
{
    let mut values = Vec::with_capacity(alloc, table.len())?;
    for (key, item) in table {
        match value_shown(key, &heap.see_item(item))? {
            Some(value) => values.push(value)?,
            None => return Ok(None),
        }
    }
    Ok(Some(values))
}

/// The value of an entry, frozen, if its key and its value are strings.
fn value_shown(key: &Key, value: &Seen<'_, '_>) -> Result<Option<Frozen>, AllocError>
    ensures { IfOk result (λ o. o ≡ value_shown key.now (seen value.now)) }
{
    match key {
        Key::Text(_) => text_seen(value),
        _ => Ok(None),
    }
}
