//! The values that an attribute takes.
ghost use Rattle.std.specs.Prelude.{◌≡◌, ◌<◌, IfOk, OnOk, length};
ghost use Rattle.std.specs.List.{list_any};
ghost use Rattle.leaves.specs.Leaves.{same_key};
ghost use Rattle.targets.specs.Choosing.{HasAll, HasMore};
ghost use Rattle.targets.specs.RuleCalls.{is_allowed};

use crate::Sequence;
use indexmap::IndexSet;
use std::alloc::{AllocError, Global};
use std::marker::Model;
use values::Key;

/// So many values, at most, are gone through rather than looked up.
const FEW: usize = 8;

/// The strings or whole numbers that an attribute takes, as they are listed: to a contract a list.
/// Where there are many, each is found by a look-up.
#[derive(Drop)]
pub struct Choices {
    listed: Sequence<Key>,
    /// Each of them once, where there are more than a few.
    table: IndexSet<Key>,
}

impl Model for Choices {
    ghost use Rattle.std.specs.Prelude.{List, ◌<◌, length};
    ghost use Rattle.std.specs.Coded.{coded_list};
    ghost use Rattle.keys.specs.declared.key.Key.{Key as Index};
    ghost use Rattle.leaves.specs.LeafCodes.{key_code};
    ghost use Rattle.targets.specs.Choosing.{HasAll};
    ghost use Rattle.targets.specs.declared.choices.TheConstants.{FEW};

    ghost Value = { List Index };

    ghost coded = { coded_list key_code };

    ghost view = { λ c. c.listed };

    ghost invariant = { λ c. FEW < length c.listed → HasAll c.listed c.table.keys };
}

impl Choices {
    /// These values. Many are put into a table, once.
    ///
    /// # Errors
    ///
    /// `AllocError` where memory was refused.
    pub fn of(alloc: Global, listed: Sequence<Key>) -> Result<Choices, AllocError>
        ensures { IfOk result (λ c. c ≡ listed) }
    {
        let table = table_of(alloc, listed.as_slice())?;
        Ok(Choices { listed, table })
    }

    /// Whether an attribute that takes these takes a key: where there are none, it takes every key.
    pub fn allow(&self, key: &Key) -> bool
        ensures { result ≡ is_allowed self.now key.now }
    {
        self.listed.len() == 0 || self.contains(key)
    }

    /// Whether a key is one of them.
    fn contains(&self, key: &Key) -> bool
        ensures { result ≡ list_any (same_key key.now) self.now }
    {
        if self.listed.len() <= FEW {
            return is_among(self.listed.as_slice(), key);
        }
        self.table.contains(key)
    }
}

/// A table of these, where there are more than a few; else an empty one, which takes no memory.
fn table_of(alloc: Global, listed: &[Key]) -> Result<IndexSet<Key>, AllocError>
    ensures { IfOk result (λ t. FEW < length listed.now → HasAll listed.now t.keys) }
{
    if listed.len() <= FEW {
        return Ok(IndexSet::new(alloc));
    }
    full_table(alloc, listed)
}

/// A table of these.
fn full_table(alloc: Global, listed: &[Key]) -> Result<IndexSet<Key>, AllocError>
    ensures { IfOk result (λ t. HasAll listed.now t.keys) }
{
    let mut table = IndexSet::with_capacity(alloc, listed.len())?;
    for key in listed {
        add(&mut table, key)?;
    }
    Ok(table)
}

/// Puts a key into a table, if it isn't there.
fn add(table: &mut IndexSet<Key>, key: &Key) -> Result<(), AllocError>
    ensures { OnOk result (HasMore key.now table.old.keys table.new.keys) }
{
    table.insert(key.share()?)?;
    Ok(())
}

/// Whether a key is one of these.
fn is_among(keys: &[Key], key: &Key) -> bool
    ensures { result ≡ list_any (same_key key.now) keys.now }
{
    keys.iter().any(|other| *key == *other)
}
