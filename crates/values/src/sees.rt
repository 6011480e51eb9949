//! One view of values, in cells and frozen alike: what equality, freezing and `str` look at.
//!
//! Nothing is shared or copied to look: a view borrows the cell or the tree.
ghost use Rattle.std.specs.Prelude.{◌≡◌, ◌<◌, ◌≤◌, IfOk, length, slice_get, Some, MatchOption};
ghost use Rattle.std.specs.Prelude.{map, option_copied, option_map};
ghost use Rattle.std.specs.Map.{lookup};
ghost use Rattle.values.specs.Keyed.{AreDistinct};
ghost use Rattle.leaves.specs.Leaves.{same_key};
ghost use Rattle.values.specs.Shape.{cell_shape, slot_of, value_of, zip};
ghost use Rattle.values.specs.Seeing.{entry_value, item_value, option_value, group_items};
ghost use Rattle.values.specs.Seeing.{table_entries, slot_values, seen};
ghost use Rattle.values.specs.Visits.{keys_as_values, keys_of, values_of};

use crate::{Branch, Cell, Entries, Frozen, Key, LeafRef, Operand, Provider, Value};
use indexmap::IndexSet;
use std::alloc::AllocError;

/// A value wherever it lies: in a heap or with its owner, in a frozen value, as a key of a dict, or
/// as an element of a depset.
#[derive(Clone, Copy)]
pub enum Item<'b> {
    /// A key.
    Key(&'b Key),
    /// A leaf.
    Leaf(LeafRef<'b>),
    /// The number of a cell.
    Cell(usize),
    /// A frozen value with parts.
    Branch(&'b Branch),
}

/// The items of a list or tuple, wherever they stand.
#[derive(Clone, Copy)]
pub enum Group<'b, 'a> {
    /// In a cell.
    Values(&'b [Operand<'a>]),
    /// In a frozen value of one's own.
    Trees(&'b [Frozen]),
    /// In a frozen value that is lent.
    Lent(&'a [Frozen]),
}

/// The entries of a dict, wherever they stand, in order.
#[derive(Clone, Copy)]
pub enum Table<'b, 'a> {
    /// In a cell.
    Values(&'b Entries<'a>),
    /// In a frozen value of one's own.
    Trees(&'b IndexSet<Key>, &'b [Frozen]),
    /// In a frozen value that is lent.
    Lent(&'a IndexSet<Key>, &'a [Frozen]),
}

/// The fields of an instance, wherever they stand, by the places of their names in the provider.
#[derive(Clone, Copy)]
pub enum Slots<'b, 'a> {
    /// In a cell.
    Values(&'b [Option<Operand<'a>>]),
    /// In a frozen value of one's own.
    Trees(&'b [Option<Frozen>]),
    /// In a frozen value that is lent.
    Lent(&'a [Option<Frozen>]),
}

/// What a value shows.
#[derive(Clone, Copy)]
pub enum Seen<'b, 'a> {
    Key(&'b Key),
    Leaf(LeafRef<'b>),
    List(Group<'b, 'a>),
    Tuple(Group<'b, 'a>),
    Dict(Table<'b, 'a>),
    Instance(&'b Provider, Slots<'b, 'a>),
    /// The number of a cell that the heap doesn't have.
    Nothing,
}

/// The part at a place.
#[inline(always)]
fn part_at<T>(parts: &[T], place: usize) -> &T
    requires { place < length parts.now }
    ensures { slice_get parts.now place ≡ Some result.now }
{
    &parts[place]
}

impl<'b> Item<'b> {
    /// A value of one's own, for what keeps it: at most a count more.
    ///
    /// # Errors
    ///
    /// `AllocError` where a count is at its greatest.
    #[inline(always)]
    pub fn to_value(self) -> Result<Value, AllocError>
        ensures { IfOk result (λ v. v ≡ item_value self.entry) }
    {
        match self {
            Item::Key(key) => Ok(Value::Key(key.share()?)),
            Item::Leaf(leaf) => Ok(Value::Leaf(leaf.share()?)),
            Item::Cell(number) => Ok(Value::Cell(number)),
            Item::Branch(branch) => Ok(Value::Frozen(branch.share()?)),
        }
    }
}

impl<'b, 'a> Group<'b, 'a> {
    /// How many items there are.
    #[inline(always)]
    pub fn len(&self) -> usize
        ensures { result ≡ length (group_items self.now) }
    {
        match self {
            Group::Values(values) => values.len(),
            Group::Trees(trees) => trees.len(),
            Group::Lent(trees) => trees.len(),
        }
    }

    /// The item at a place.
    #[inline(always)]
    pub fn item(&self, place: usize) -> Item<'b>
        requires { place < length (group_items self.now) }
        ensures { slice_get (group_items self.now) place ≡ Some (item_value result) }
    {
        match self {
            Group::Values(values) => part_at(values, place).item(),
            Group::Trees(trees) => part_at(trees, place).item(),
            Group::Lent(trees) => part_at(trees, place).item(),
        }
    }

    /// The item at a place, for what holds it: no count where it is lent, and else at most one.
    ///
    /// # Errors
    ///
    /// `AllocError` where a count is at its greatest.
    #[inline(always)]
    pub fn operand(&self, place: usize) -> Result<Operand<'a>, AllocError>
        requires { place < length (group_items self.now) }
        ensures { IfOk result (λ o. slice_get (group_items self.now) place ≡ Some o) }
    {
        match self {
            Group::Values(values) => part_at(values, place).share(),
            Group::Trees(trees) => Ok(Operand::own(part_at(trees, place).to_value()?)),
            Group::Lent(trees) => Ok(Operand::lent(part_at(trees, place).item())),
        }
    }
}

impl<'b, 'a> Slots<'b, 'a> {
    /// How many fields the provider has.
    pub fn len(&self) -> usize
        ensures { result ≡ length (slot_values self.now) }
    {
        match self {
            Slots::Values(values) => values.len(),
            Slots::Trees(trees) => trees.len(),
            Slots::Lent(trees) => trees.len(),
        }
    }

    /// The value of the field at a place, if it was given.
    pub fn slot(&self, place: usize) -> Option<Item<'b>>
        requires { place < length (slot_values self.now) }
        ensures { slice_get (slot_values self.now) place ≡ Some (option_value result) }
    {
        match *self {
            Slots::Values(values) => held_item(values, place),
            Slots::Trees(trees) => frozen_item(trees, place),
            Slots::Lent(trees) => frozen_item(trees, place),
        }
    }

    /// The value of the field at a place, if it was given, for what holds it: no count where it is
    /// lent, and else at most one.
    ///
    /// # Errors
    ///
    /// `AllocError` where a count is at its greatest.
    pub fn operand(&self, place: usize) -> Result<Option<Operand<'a>>, AllocError>
        requires { place < length (slot_values self.now) }
        ensures { IfOk result (λ o. slice_get (slot_values self.now) place ≡ Some o) }
    {
        match *self {
            Slots::Values(values) => shared_slot(values, place),
            Slots::Trees(trees) => own_slot(trees, place),
            Slots::Lent(trees) => lent_slot(trees, place),
        }
    }
}

/// The field at a place, if it was given, where it lies.
fn held_item<'b>(fields: &'b [Option<Operand<'_>>], place: usize) -> Option<Item<'b>>
    requires { place < length fields.now }
    ensures { slice_get fields.now place ≡ Some (option_value result) }
{
    match &fields[place] {
        Some(value) => Some(value.item()),
        None => None,
    }
}

/// The frozen field at a place, if it was given, where it lies.
fn frozen_item(fields: &[Option<Frozen>], place: usize) -> Option<Item<'_>>
    requires { place < length fields.now }
    ensures { slice_get (map slot_of fields.now) place ≡ Some (option_value result) }
{
    match &fields[place] {
        Some(tree) => Some(tree.item()),
        None => None,
    }
}

/// The field at a place, if it was given, for what holds it.
fn shared_slot<'a>(
    fields: &[Option<Operand<'a>>],
    place: usize,
) -> Result<Option<Operand<'a>>, AllocError>
    requires { place < length fields.now }
    ensures { IfOk result (λ o. slice_get fields.now place ≡ Some o) }
{
    match &fields[place] {
        Some(value) => Ok(Some(value.share()?)),
        None => Ok(None),
    }
}

/// The frozen field at a place, if it was given, as a value of one's own.
fn own_slot<'a>(fields: &[Option<Frozen>], place: usize) -> Result<Option<Operand<'a>>, AllocError>
    requires { place < length fields.now }
    ensures { IfOk result (λ o. slice_get (map slot_of fields.now) place ≡ Some o) }
{
    match &fields[place] {
        Some(tree) => Ok(Some(Operand::own(tree.to_value()?))),
        None => Ok(None),
    }
}

/// The frozen field at a place, if it was given, lent.
fn lent_slot<'a>(
    fields: &'a [Option<Frozen>],
    place: usize,
) -> Result<Option<Operand<'a>>, AllocError>
    requires { place < length fields.now }
    ensures { IfOk result (λ o. slice_get (map slot_of fields.now) place ≡ Some o) }
{
    match &fields[place] {
        Some(tree) => Ok(Some(Operand::lent(tree.item()))),
        None => Ok(None),
    }
}

impl<'b, 'a> Table<'b, 'a> {
    /// How many entries there are.
    #[inline(always)]
    pub fn len(&self) -> usize
        ensures { result ≡ length (table_entries self.now) }
    {
        match self {
            Table::Values(entries) => entries.len(),
            Table::Trees(keys, values) => keys.len().min(values.len()),
            Table::Lent(keys, values) => keys.len().min(values.len()),
        }
    }

    /// How many entries there are. No two have one key.
    pub fn distinct_len(&self) -> usize
        ensures len { result ≡ length (table_entries self.now) }
        ensures distinct { AreDistinct (keys_of (table_entries self.now)) }
    {
        match self {
            Table::Values(entries) => entries.distinct_len(),
            Table::Trees(keys, values) => distinct_pairs(keys, values),
            Table::Lent(keys, values) => distinct_pairs(keys, values),
        }
    }

    /// The key and the value at a place.
    #[inline(always)]
    pub fn at(&self, place: usize) -> Option<(&'b Key, Item<'b>)>
        ensures { MatchOption result (length (table_entries self.now) ≤ place)
            (λ e. slice_get (table_entries self.now) place ≡ Some (entry_value e)) }
    {
        match self {
            Table::Values(entries) => {
                let (key, value) = entries.at(place)?;
                Some((key, value.item()))
            }
            Table::Trees(keys, values) => pair_at(keys, values, place),
            Table::Lent(keys, values) => pair_at(keys, values, place),
        }
    }

    /// The key at a place as a value, for what holds it: no count where it is lent, and else at
    /// most one.
    ///
    /// # Errors
    ///
    /// `AllocError` where a count is at its greatest.
    pub fn key_at(&self, place: usize) -> Result<Operand<'a>, AllocError>
        requires { place < length (table_entries self.now) }
        ensures { IfOk result (λ o. slice_get (keys_as_values (table_entries self.now)) place
            ≡ Some o) }
    {
        match *self {
            Table::Values(entries) => entries.key_at(place),
            Table::Trees(keys, values) => own_key(keys, values, place),
            Table::Lent(keys, values) => Ok(lent_key(keys, values, place)),
        }
    }

    /// The value at a place, for what holds it: no count where it is lent, and else at most one.
    ///
    /// # Errors
    ///
    /// `AllocError` where a count is at its greatest.
    pub fn value_at(&self, place: usize) -> Result<Operand<'a>, AllocError>
        requires { place < length (table_entries self.now) }
        ensures { IfOk result (λ o. slice_get (values_of (table_entries self.now)) place
            ≡ Some o) }
    {
        match *self {
            Table::Values(entries) => entries.value_at(place),
            Table::Trees(keys, values) => own_value(keys, values, place),
            Table::Lent(keys, values) => Ok(lent_value(keys, values, place)),
        }
    }

    /// The value of a key, by its hash.
    pub fn get(&self, key: &Key) -> Option<Item<'b>>
        ensures { option_value result ≡ lookup (same_key key.now) (table_entries self.now) }
    {
        match self {
            Table::Values(entries) => Some(entries.get(key)?.item()),
            Table::Trees(keys, values) => Some(tree_of_key(keys, values, key)?.item()),
            Table::Lent(keys, values) => Some(tree_of_key(keys, values, key)?.item()),
        }
    }

    /// The value of a key, by its hash, for what holds it: no count where it is lent, and else at
    /// most one.
    ///
    /// # Errors
    ///
    /// `AllocError` where a count is at its greatest.
    pub fn operand(&self, key: &Key) -> Result<Option<Operand<'a>>, AllocError>
        ensures { IfOk result (λ o. o ≡ lookup (same_key key.now) (table_entries self.now)) }
    {
        match self {
            Table::Values(entries) => match entries.get(key) {
                Some(value) => Ok(Some(value.share()?)),
                None => Ok(None),
            },
            Table::Trees(keys, values) => match tree_of_key(keys, values, key) {
                Some(tree) => Ok(Some(Operand::own(tree.to_value()?))),
                None => Ok(None),
            },
            Table::Lent(keys, values) => match tree_of_key(keys, values, key) {
                Some(tree) => Ok(Some(Operand::lent(tree.item()))),
                None => Ok(None),
            },
        }
    }
}

/// How many keys have a value. They are distinct, as all the keys are.
fn distinct_pairs(keys: &IndexSet<Key>, values: &[Frozen]) -> usize
    ensures len { result ≡ length (zip keys.now.keys values.now) }
    ensures distinct { AreDistinct (keys_of (zip keys.now.keys values.now)) }
{
    keys.len().min(values.len())
}

/// The key and the value at a place, as many as have both.
fn pair_at<'a>(
    keys: &'a IndexSet<Key>,
    values: &'a [Frozen],
    place: usize,
) -> Option<(&'a Key, Item<'a>)>
    ensures { MatchOption result (length (zip keys.now.keys values.now) ≤ place)
        (λ e. slice_get (zip keys.now.keys values.now) place ≡ Some (entry_value e)) }
{
    Some((keys.get_index(place)?, values.get(place)?.item()))
}

/// The frozen key at a place, as a value of one's own.
#[tactic(auto, using(crate::proofs::KeyListLemmas::key_value_of_entry))]
fn own_key<'a>(
    keys: &IndexSet<Key>,
    values: &[Frozen],
    place: usize,
) -> Result<Operand<'a>, AllocError>
    requires { place < length (zip keys.now.keys values.now) }
    ensures { IfOk result (λ o. slice_get (keys_as_values (zip keys.now.keys values.now)) place
        ≡ Some o) }
{
    match pair_at(keys, values, place) {
        Some((key, _)) => Ok(Operand::own(Value::Key(key.share()?))),
        None => unreachable!(),
    }
}

/// The frozen key at a place, lent.
#[tactic(auto, using(crate::proofs::KeyListLemmas::key_value_of_entry))]
fn lent_key<'a>(keys: &'a IndexSet<Key>, values: &'a [Frozen], place: usize) -> Operand<'a>
    requires { place < length (zip keys.now.keys values.now) }
    ensures { slice_get (keys_as_values (zip keys.now.keys values.now)) place ≡ Some result }
{
    match pair_at(keys, values, place) {
        Some((key, _)) => Operand::lent_key(key),
        None => unreachable!(),
    }
}

/// The frozen value at a place, as one of one's own.
#[tactic(auto, using(crate::proofs::KeyListLemmas::value_of_entry))]
fn own_value<'a>(
    keys: &IndexSet<Key>,
    values: &[Frozen],
    place: usize,
) -> Result<Operand<'a>, AllocError>
    requires { place < length (zip keys.now.keys values.now) }
    ensures { IfOk result (λ o. slice_get (values_of (zip keys.now.keys values.now)) place
        ≡ Some o) }
{
    match pair_at(keys, values, place) {
        Some((_, item)) => Ok(Operand::own(item.to_value()?)),
        None => unreachable!(),
    }
}

/// The frozen value at a place, lent.
#[tactic(auto, using(crate::proofs::KeyListLemmas::value_of_entry))]
fn lent_value<'a>(keys: &'a IndexSet<Key>, values: &'a [Frozen], place: usize) -> Operand<'a>
    requires { place < length (zip keys.now.keys values.now) }
    ensures { slice_get (values_of (zip keys.now.keys values.now)) place ≡ Some result }
{
    match pair_at(keys, values, place) {
        Some((_, item)) => Operand::lent(item),
        None => unreachable!(),
    }
}

/// The value of a key.
fn tree_of_key<'b>(keys: &IndexSet<Key>, values: &'b [Frozen], key: &Key) -> Option<&'b Frozen>
    ensures { option_map value_of (option_copied result)
        ≡ lookup (same_key key.now) (zip keys.now.keys values.now) }
{
    let place = keys.get_index_of(key)?;
    Some(values.get(place)?)
}

impl<'a> Cell<'a> {
    /// What a value of this cell shows.
    #[inline(always)]
    pub fn see<'b>(&'b self) -> Seen<'b, 'a>
        ensures { seen result ≡ cell_shape (Some self.now) }
    {
        match self {
            Cell::List(items, _) => Seen::List(Group::Values(items.as_slice())),
            Cell::Tuple(items) => Seen::Tuple(Group::Values(items.as_slice())),
            Cell::Dict(entries, _) => Seen::Dict(Table::Values(entries.get())),
            Cell::Instance(provider, fields) => {
                Seen::Instance(provider.get(), Slots::Values(fields.as_slice()))
            }
        }
    }
}
