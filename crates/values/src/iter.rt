//! The items of a sequence and the entries of a dict, wherever they stand, one after the other.
ghost use Rattle.std.specs.Prelude.{◌≡◌};

use crate::{Group, Item, Key, Table};
use std::marker::Model;

/// The items of a list or tuple that are left, from the first on.
#[derive(Drop)]
pub struct GroupIter<'b, 'a> {
    items: Group<'b, 'a>,
    next: usize,
}

impl<'b, 'a> Model for GroupIter<'b, 'a> {
    ghost use Rattle.std.specs.Prelude.{List, drop};
    ghost use Rattle.values.specs.declared.value.Value.{Value as Held};
    ghost use Rattle.values.specs.Seeing.{group_items};
    ghost use Rattle.values.specs.ValueCodes.{items_code};

    ghost Value = { List Held };

    ghost coded = { items_code };

    ghost view = { λ i. drop i.next (group_items i.items) };
}

impl<'b, 'a> Iterator for GroupIter<'b, 'a> {
    ghost use Rattle.std.specs.Iterator.{YieldsFirstBy, item_count};
    ghost use Rattle.values.specs.Seeing.{item_value};

    type Item = Item<'b>;

    ghost next_gives = { YieldsFirstBy item_value (λ items. items) };

    ghost remaining = { item_count (λ items. items) };

    #[inline(always)]
    fn next(&mut self) -> Option<Item<'b>> {
        if self.next >= self.items.len() {
            return None;
        }
        let item = self.items.item(self.next);
        self.next += 1;
        Some(item)
    }
}

impl<'b, 'a> IntoIterator for Group<'b, 'a> {
    ghost use Rattle.values.specs.Seeing.{group_items};

    type Item = Item<'b>;

    type IntoIter = GroupIter<'b, 'a>;

    ghost into_iter_gives = { λ s r. r ≡ group_items s };

    #[inline(always)]
    fn into_iter(self) -> GroupIter<'b, 'a> {
        GroupIter {
            items: self,
            next: 0,
        }
    }
}

/// The entries of a dict that are left, from the first on.
#[derive(Drop)]
pub struct TableIter<'b, 'a> {
    table: Table<'b, 'a>,
    next: usize,
}

impl<'b, 'a> Model for TableIter<'b, 'a> {
    ghost use Rattle.std.specs.Prelude.{List, drop};
    ghost use Rattle.values.specs.declared.value.Value.{Value as Held};
    ghost use Rattle.keys.specs.declared.key.Key.{Key as Index};
    ghost use Rattle.values.specs.Seeing.{table_entries};
    ghost use Rattle.values.specs.ValueCodes.{entries_code};

    ghost Value = { List (Index × Held) };

    ghost coded = { entries_code };

    ghost view = { λ i. drop i.next (table_entries i.table) };
}

impl<'b, 'a> Iterator for TableIter<'b, 'a> {
    ghost use Rattle.std.specs.Iterator.{YieldsFirstBy, item_count};
    ghost use Rattle.values.specs.Seeing.{entry_value};

    type Item = (&'b Key, Item<'b>);

    ghost next_gives = { YieldsFirstBy entry_value (λ entries. entries) };

    ghost remaining = { item_count (λ entries. entries) };

    #[inline(always)]
    fn next(&mut self) -> Option<(&'b Key, Item<'b>)> {
        if self.next >= self.table.len() {
            return None;
        }
        let entry = self.table.at(self.next)?;
        self.next += 1;
        Some(entry)
    }
}

impl<'b, 'a> IntoIterator for Table<'b, 'a> {
    ghost use Rattle.values.specs.Seeing.{table_entries};

    type Item = (&'b Key, Item<'b>);

    type IntoIter = TableIter<'b, 'a>;

    ghost into_iter_gives = { λ s r. r ≡ table_entries s };

    #[inline(always)]
    fn into_iter(self) -> TableIter<'b, 'a> {
        TableIter {
            table: self,
            next: 0,
        }
    }
}
