//! What walks have left.
ghost use Rattle.std.specs.Prelude.{◌≡◌, ◌+◌, ◌<◌, ◌^◌, ◌∷◌, [], drop, IfOk, MatchOption};
ghost use Rattle.std.specs.Prelude.{Some};
ghost use Rattle.values.specs.Seeing.{seen, item_value, group_items};
ghost use Rattle.values.specs.Shape.{shape};
ghost use Rattle.values.specs.Walks.{walked_items, walked_values};
ghost use Rattle.evaluator.specs.Walked.{Gives, left_seen, frozen_seen, held_items_seen};
ghost use Rattle.evaluator.specs.Walked.{held_keys_seen, table_keys};
ghost use Rattle.values.specs.Walks.{keys_as_values};

use heap::Heap;
use operands::Operand;
use std::alloc::AllocError;
use values::{
    Branch, Entries, Group, GroupIter, HeldEntries, HeldItems, Item, Key, Seen, Table, TableIter,
    Value, Walked,
};

/// The items that a walk has left. Of a value of this evaluation it holds a share, and copies
/// nothing.
#[derive(Drop)]
pub enum Left<'a> {
    /// Those of a list or tuple of the heap.
    HeldItems(HeldItemsLeft<'a>),
    /// The keys of a dict of the heap.
    HeldKeys(HeldKeysLeft<'a>),
    /// Those of a frozen value of one's own.
    Frozen(FrozenLeft),
    /// Those of a list or tuple that is lent.
    Items(GroupIter<'a, 'a>),
    /// The keys of a dict that is lent, with their values.
    Keys(TableIter<'a, 'a>),
    /// None: of what isn't walked.
    Nothing,
}

/// The items of a list or tuple of the heap from a place on.
#[derive(Drop)]
pub struct HeldItemsLeft<'a> {
    items: HeldItems<'a>,
    place: usize,
}

/// The keys of a dict of the heap from a place on.
#[derive(Drop)]
pub struct HeldKeysLeft<'a> {
    entries: HeldEntries<'a>,
    place: usize,
}

/// What a walk goes over in a frozen value, from a place on.
#[derive(Drop)]
pub struct FrozenLeft {
    branch: Branch,
    place: usize,
}

impl<'a> Left<'a> {
    /// All that a value shows that is walked and lent.
    pub(crate) fn lent(walked: &Seen<'a, 'a>) -> Left<'a>
        ensures { left_seen result ≡ walked_items (seen walked.now) }
    {
        match *walked {
            Seen::List(items) => Left::Items(items.into_iter()),
            Seen::Tuple(items) => Left::Items(items.into_iter()),
            Seen::Dict(entries) => Left::Keys(entries.into_iter()),
            _ => Left::Nothing,
        }
    }

    /// All that a value of this evaluation shows that is walked. What it is of the heap is shared
    /// with the walk, and the heap stays as it was.
    ///
    /// # Errors
    ///
    /// `AllocError` where there is no memory for a count, or where one is at its greatest.
    pub(crate) fn own(heap: &mut Heap<'a>, walked: &Value) -> Result<Left<'a>, AllocError>
        ensures same { heap.new ≡ heap.old }
        ensures ok { IfOk result (λ left. left_seen left
            ≡ walked_items (shape heap.old walked.now)) }
    {
        match walked {
            Value::Frozen(branch) => {
                let branch = branch.share()?;
                Ok(Left::Frozen(FrozenLeft { branch, place: 0 }))
            }
            Value::Cell(number) => {
                let walked = heap.share(*number)?;
                Ok(held_from_first(walked))
            }
            Value::Key(_) | Value::Leaf(_) => Ok(Left::Nothing),
        }
    }

    /// The next item, None at the end.
    ///
    /// # Errors
    ///
    /// `AllocError` where a count is at its greatest.
    #[inline(always)]
    pub(crate) fn next(&mut self) -> Result<Option<Operand<'a>>, AllocError>
        ensures { IfOk result (λ next. Gives (left_seen self.old) next (left_seen self.new)) }
    {
        match self {
            Left::HeldItems(left) => left.next(),
            Left::HeldKeys(left) => left.next(),
            Left::Frozen(left) => left.next(),
            Left::Items(left) => Ok(next_item(left)),
            Left::Keys(left) => Ok(next_key(left)),
            Left::Nothing => Ok(None),
        }
    }
}

/// All that is shared of a cell.
fn held_from_first<'a>(walked: Walked<'a>) -> Left<'a>
    ensures { left_seen result ≡ walked_values walked.entry }
{
    match walked {
        Walked::Items(items) => Left::HeldItems(HeldItemsLeft { items, place: 0 }),
        Walked::Entries(entries) => Left::HeldKeys(HeldKeysLeft { entries, place: 0 }),
        Walked::Nothing => Left::Nothing,
    }
}

/// The item of a cell at a place, None from the end on.
#[inline(always)]
fn held_at<'b, 'a>(items: &'b [Operand<'a>], place: usize) -> Option<&'b Operand<'a>>
    ensures { MatchOption result (drop place items.now ≡ []) (λ item.
        (drop place items.now ≡ item.now ∷ drop (place + 1) items.now)
        × (place + 1 < 2 ^ 64)) }
{
    items.get(place)
}

/// The item at a place, None from the end on.
fn item_at<'b>(items: Group<'b, '_>, place: usize) -> Option<Item<'b>>
    ensures { MatchOption result (drop place (group_items items.entry) ≡ []) (λ item.
        (drop place (group_items items.entry)
        ≡ item_value item ∷ drop (place + 1) (group_items items.entry))
        × (place + 1 < 2 ^ 64)) }
{
    if place < items.len() {
        Some(items.item(place))
    } else {
        None
    }
}

/// The key at a place, None from the end on.
fn key_at<'b>(entries: Table<'b, '_>, place: usize) -> Option<&'b Key>
    ensures { MatchOption result (drop place (table_keys entries.entry) ≡ []) (λ key.
        (drop place (table_keys entries.entry)
        ≡ Value.Key key.now ∷ drop (place + 1) (table_keys entries.entry))
        × (place + 1 < 2 ^ 64)) }
{
    if place >= entries.len() {
        return None;
    }
    match entries.at(place) {
        Some((key, _)) => Some(key),
        None => None,
    }
}

/// The key of a dict of the heap at a place, None from the end on.
#[inline(always)]
fn held_key<'a>(entries: &Entries<'a>, place: usize) -> Result<Option<Operand<'a>>, AllocError>
    ensures { IfOk result (λ next. MatchOption next (drop place (keys_as_values entries.now) ≡ [])
        (λ key. (drop place (keys_as_values entries.now)
        ≡ key ∷ drop (place + 1) (keys_as_values entries.now)) × (place + 1 < 2 ^ 64))) }
{
    if place < entries.len() {
        Ok(Some(entries.key_at(place)?))
    } else {
        Ok(None)
    }
}

impl<'a> HeldItemsLeft<'a> {
    /// The next item.
    #[inline(always)]
    fn next(&mut self) -> Result<Option<Operand<'a>>, AllocError>
        ensures { IfOk result (λ next. Gives (held_items_seen self.old) next
            (held_items_seen self.new)) }
    {
        match held_at(self.items.as_slice(), self.place) {
            Some(item) => {
                let item = item.share()?;
                self.place += 1;
                Ok(Some(item))
            }
            None => Ok(None),
        }
    }
}

impl<'a> HeldKeysLeft<'a> {
    /// The next key.
    #[inline(always)]
    fn next(&mut self) -> Result<Option<Operand<'a>>, AllocError>
        ensures { IfOk result (λ next. Gives (held_keys_seen self.old) next
            (held_keys_seen self.new)) }
    {
        match held_key(self.entries.get(), self.place)? {
            Some(key) => {
                self.place += 1;
                Ok(Some(key))
            }
            None => Ok(None),
        }
    }
}

impl FrozenLeft {
    /// The next item or key.
    fn next<'a>(&mut self) -> Result<Option<Operand<'a>>, AllocError>
        ensures { IfOk result (λ next. Gives (frozen_seen self.old) next
            (frozen_seen self.new)) }
    {
        match walked_at(&self.branch.see(), self.place) {
            Some(item) => {
                let value = item.to_value()?;
                self.place += 1;
                Ok(Some(Operand::own(value)))
            }
            None => Ok(None),
        }
    }
}

/// What a walk comes to at a place, None from the end on.
fn walked_at<'b>(walked: &Seen<'b, '_>, place: usize) -> Option<Item<'b>>
    ensures { MatchOption result (drop place (walked_items (seen walked.now)) ≡ []) (λ item.
        (drop place (walked_items (seen walked.now))
        ≡ item_value item ∷ drop (place + 1) (walked_items (seen walked.now)))
        × (place + 1 < 2 ^ 64)) }
{
    match walked {
        Seen::List(items) => item_at(*items, place),
        Seen::Tuple(items) => item_at(*items, place),
        Seen::Dict(entries) => match key_at(*entries, place) {
            Some(key) => Some(Item::Key(key)),
            None => None,
        },
        _ => None,
    }
}

/// The next item that is lent.
#[inline(always)]
fn next_item<'a>(left: &mut GroupIter<'a, 'a>) -> Option<Operand<'a>>
    ensures { Gives left.old result left.new }
{
    match left.next() {
        Some(item) => Some(Operand::lent(item)),
        None => None,
    }
}

/// The next key that is lent.
#[inline(always)]
fn next_key<'a>(left: &mut TableIter<'a, 'a>) -> Option<Operand<'a>>
    ensures { Gives (keys_as_values left.old) result (keys_as_values left.new) }
{
    match left.next() {
        Some((key, _)) => Some(Operand::lent(Item::Key(key))),
        None => None,
    }
}
