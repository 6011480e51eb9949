//! The heap: numbered cells that names share, and all that changes them.
//!
//! A change is refused by the first of `type`, `frozen`, `iterating`, `index` and `large`, and a
//! refused change leaves the heap as it was. Each change finds its cell, and has the one cell
//! changed.
ghost use Rattle.std.specs.Prelude.{◌≡◌, ◌+◌, ◌-◌, [], ◌<◌, Result, Ok, Some, None};
ghost use Rattle.std.specs.Prelude.{length, take, slice_get, option_copied, IfErr, IfOk};
ghost use Rattle.std.specs.Prelude.{MatchResult, ◌^◌, ◌≤◌};
ghost use Rattle.ticks.specs.Ticking.{FaultOr};
ghost use Rattle.heap.specs.Cells.{made, pushed_items, joined_items, indexed_items, keyed_entries};
ghost use Rattle.heap.specs.Cells.{pushed, joined, indexed, keyed, walk_begun, walk_begun_at};
ghost use Rattle.heap.specs.Cells.{IsFull, IsFullAt, walk_over, walk_ended, ended_at};
ghost use Rattle.heap.specs.Cells.{list_changed, dict_changed, IsWalked};
ghost use Rattle.values.specs.Shape.{cell_shape};
ghost use Rattle.values.specs.Walks.{walked_items, walked_values};
ghost use Rattle.values.specs.declared.cells.Cell.{Cell as Kept};
ghost use Rattle.ticks.specs.declared.ticks.Kind.{Kind as Fault};

use numbers::place;
use plain::{Shared, push_last};
use std::alloc::{AllocError, Global};
use std::marker::Model;
use values::{
    Broken, Cell, Entries, Fields, HeldEntries, HeldItems, Items, Key, Kind, LARGEST, MaybeLent,
    Operand, Provider, Value, Walked,
};

/// Numbered cells. To a contract it is the list of them.
#[derive(Drop)]
pub struct Heap<'a> {
    cells: Vec<Cell<'a>>,
}

impl<'a> Model for Heap<'a> {
    ghost use Rattle.std.specs.Prelude.{List};
    ghost use Rattle.values.specs.declared.cells.Cell.{Cell as Numbered};
    ghost use Rattle.values.specs.CellCodes.{cells_code};

    ghost Value = { List Numbered };

    ghost coded = { cells_code };

    ghost view = { λ h. h.cells.items };
}

impl<'a> Heap<'a> {
    /// No cells.
    pub fn new(alloc: Global) -> Heap<'a>
        ensures { result ≡ [] }
    {
        Heap {
            cells: Vec::new(alloc),
        }
    }

    /// How many cells there are.
    pub fn len(&self) -> usize
        ensures { result ≡ length self.now }
    {
        self.cells.len()
    }

    /// Lets go of the cells from this number on.
    pub fn truncate(&mut self, cells: usize)
        ensures { self.new ≡ take cells self.old }
    {
        self.cells.truncate(cells);
    }

    /// The cell of this number, if there is one.
    #[inline(always)]
    pub fn cell(&self, number: usize) -> Option<&Cell<'a>>
        ensures { option_copied result ≡ slice_get self.now number }
    {
        self.cells.get(number)
    }

    /// A new list in the next cell, or `large`.
    ///
    /// # Errors
    ///
    /// `large` where it has more items than a list may have; `NoMemory` where memory was refused.
    /// The heap stays as it was.
    pub fn new_list(&mut self, items: Items<'a>) -> Result<Value, Broken>
        ensures { MatchResult result
            (λ v. made self.old (Cell.List items.entry 0) (length items.entry) ≡ Ok (v, self.new))
            (λ e. (self.new ≡ self.old)
            × FaultOr (made self.old (Cell.List items.entry 0) (length items.entry)) e) }
    {
        let parts = items.len();
        self.add(Cell::List(HeldItems::new(items), 0), parts)
    }

    /// A new tuple in the next cell, or `large`.
    ///
    /// # Errors
    ///
    /// `large` where it has more items than a tuple may have; `NoMemory` where memory was refused.
    /// The heap stays as it was.
    pub fn new_tuple(&mut self, items: Items<'a>) -> Result<Value, Broken>
        ensures { MatchResult result
            (λ v. made self.old (Cell.Tuple items.entry) (length items.entry) ≡ Ok (v, self.new))
            (λ e. (self.new ≡ self.old)
            × FaultOr (made self.old (Cell.Tuple items.entry) (length items.entry)) e) }
    {
        let parts = items.len();
        self.add(Cell::Tuple(HeldItems::new(items)), parts)
    }

    /// A new dict in the next cell, or `large`.
    ///
    /// # Errors
    ///
    /// `large` where it has more entries than a dict may have; `NoMemory` where memory was refused.
    /// The heap stays as it was.
    pub fn new_dict(&mut self, entries: Entries<'a>) -> Result<Value, Broken>
        ensures { MatchResult result
            (λ v. made self.old (Cell.Dict entries.entry 0) (length entries.entry)
            ≡ Ok (v, self.new))
            (λ e. (self.new ≡ self.old)
            × FaultOr (made self.old (Cell.Dict entries.entry 0) (length entries.entry)) e) }
    {
        let parts = entries.len();
        let entries = HeldEntries::new(*self.cells.allocator(), entries)?;
        self.add(Cell::Dict(entries, 0), parts)
    }

    /// A new instance of the provider in the next cell, with its fields by place.
    ///
    /// # Errors
    ///
    /// `NoMemory` where memory was refused. The heap stays as it was.
    #[inline(always)]
    pub fn new_instance(
        &mut self,
        provider: Shared<Provider>,
        fields: Fields<'a>,
    ) -> Result<Value, Broken>
        ensures { MatchResult result (λ v. made self.old (Cell.Instance provider fields.entry) 0
            ≡ Ok (v, self.new)) (λ e. (self.new ≡ self.old)
            × FaultOr (made self.old (Cell.Instance provider fields.entry) 0) e) }
    {
        self.add(Cell::Instance(provider, fields), 0)
    }

    /// A new cell of so many parts.
    #[inline(always)]
    fn add(&mut self, cell: Cell<'a>, parts: usize) -> Result<Value, Broken>
        ensures { MatchResult result (λ v. made self.old cell.entry parts ≡ Ok (v, self.new))
            (λ e. (self.new ≡ self.old) × FaultOr (made self.old cell.entry parts) e) }
    {
        if parts > LARGEST {
            return Err(Broken::Kind(Kind::Large));
        }
        let number = self.cells.len();
        match push_last(&mut self.cells, cell) {
            Ok(()) => Ok(Value::Cell(number)),
            Err(_) => Err(Broken::NoMemory),
        }
    }

    /// Puts an item last in a list: refused by `type`, `frozen`, `iterating` and `large`, in this
    /// order.
    ///
    /// # Errors
    ///
    /// `type` where it is no list, `frozen` where it is frozen, `iterating` where it is walked, or
    /// `large` where it is as long as a list may be; `NoMemory` where memory was refused. The heap
    /// stays as it was.
    pub fn append(&mut self, list: &Value, item: Operand<'a>) -> Result<(), Broken>
        ensures { MatchResult result (λ _. list_changed (pushed item.entry) self.old list.now
            ≡ Ok self.new) (λ e. (self.new ≡ self.old)
            × FaultOr (list_changed (pushed item.entry) self.old list.now) e) }
    {
        let changed = self.list_cell(list)?;
        let cell = &mut self.cells[changed];
        push_to(cell, item)?;
        Ok(())
    }

    /// Puts items last in a list, in place: refused as `append` is.
    ///
    /// # Errors
    ///
    /// As for `append`; `large` where it would be longer than a list may be.
    pub fn extend(&mut self, list: &Value, items: Items<'a>) -> Result<(), Broken>
        ensures { MatchResult result (λ _. list_changed (joined items.entry) self.old list.now
            ≡ Ok self.new) (λ e. (self.new ≡ self.old)
            × FaultOr (list_changed (joined items.entry) self.old list.now) e) }
    {
        let number = self.list_cell(list)?;
        let cell = &mut self.cells[number];
        join_to(cell, items)?;
        Ok(())
    }

    /// Sets the item of a list at an index, from the end where it is negative: refused by `type`,
    /// `frozen`, `iterating` and `index`, in this order.
    ///
    /// # Errors
    ///
    /// `type` where it is no list, `frozen` where it is frozen, `iterating` where it is walked, or
    /// `index` where it has no such item; `NoMemory` where memory was refused. The heap stays as it
    /// was.
    pub fn set_index(&mut self, list: &Value, index: i64, item: Operand<'a>) -> Result<(), Broken>
        ensures { MatchResult result
            (λ _. list_changed (indexed index item.entry) self.old list.now ≡ Ok self.new)
            (λ e. (self.new ≡ self.old)
            × FaultOr (list_changed (indexed index item.entry) self.old list.now) e) }
    {
        let number = self.list_cell(list)?;
        let cell = &mut self.cells[number];
        set_in(cell, index, item)?;
        Ok(())
    }

    /// Gives a key of a dict the value; a key that is there keeps its place. Refused by `type`,
    /// `frozen`, `iterating` and, for a new key, `large`, in this order.
    ///
    /// # Errors
    ///
    /// `type` where it is no dict, `frozen` where it is frozen, `iterating` where it is walked, or
    /// `large` where the key is new and the dict has as many entries as one may have; `NoMemory`
    /// where memory was refused. The heap stays as it was.
    pub fn set_key(
        &mut self,
        dict: &Value,
        key: MaybeLent<'a, Key>,
        item: Operand<'a>,
    ) -> Result<(), Broken>
        ensures { MatchResult result
            (λ _. dict_changed (keyed key.entry item.entry) self.old dict.now ≡ Ok self.new)
            (λ e. (self.new ≡ self.old)
            × FaultOr (dict_changed (keyed key.entry item.entry) self.old dict.now) e) }
    {
        let number = self.dict_cell(dict)?;
        let cell = &mut self.cells[number];
        put_in(cell, key, item)?;
        Ok(())
    }

    /// What a walk over the cell of this number goes over, shared with it and not copied. The heap
    /// stays as it was.
    ///
    /// # Errors
    ///
    /// `AllocError` where there is no memory for the count of those who share, or where it is at
    /// its greatest.
    pub fn share(&mut self, number: usize) -> Result<Walked<'a>, AllocError>
        ensures same { self.new ≡ self.old }
        ensures ok { IfOk result (λ w. walked_values w
            ≡ walked_items (cell_shape (slice_get self.old number))) }
    {
        let alloc = *self.cells.allocator();
        if number >= self.cells.len() {
            return Ok(Walked::Nothing);
        }
        share_in(&mut self.cells[number], alloc)
    }

    /// A walk over a list, a tuple or a dict begins: until it is over, a list or a dict isn't
    /// changed. All else is `type`. It gives the cell in which the walk is counted, where there is
    /// one: in a frozen value nothing is counted.
    ///
    /// # Errors
    ///
    /// `type` where it is no list, tuple or dict; `NoMemory` only where the cell counts 2^64 - 1
    /// walks already.
    pub fn begin_walk(&mut self, walked: &Value) -> Result<Option<usize>, Broken>
        ensures begun { MatchResult result
            (λ n. walk_begun_at self.old walked.now ≡ Ok (n, self.new))
            (λ e. (self.new ≡ self.old) × FaultOr (walk_begun_at self.old walked.now) e) }
        ensures full { IfErr result (λ e. e ≡ Broken.NoMemory → IsFullAt self.old walked.now) }
    {
        let number = match self.walked_cell(walked) {
            Ok(Some(number)) => number,
            Ok(None) => return Ok(None),
            Err(kind) => return Err(Broken::Kind(kind)),
        };
        let cell = &mut self.cells[number];
        begin_in(cell)?;
        Ok(Some(number))
    }

    /// A walk that was begun is over: what `begin_walk` gave.
    pub fn end_walk(&mut self, counted: Option<usize>)
        ensures { self.new ≡ walk_ended self.old counted }
    {
        if let Some(number) = counted {
            self.end_at(number);
        }
    }

    /// Takes a walk from the count of a cell.
    fn end_at(&mut self, number: usize)
        ensures { self.new ≡ ended_at self.old number }
    {
        if number < self.cells.len() {
            end_in(&mut self.cells[number]);
        }
    }

    /// The number of the cell that a change of a list changes, or why there is none.
    fn list_cell(&self, list: &Value) -> Result<usize, Broken>
        ensures { MatchResult result (λ n. (n < length self.now) × (list.now ≡ Value.Cell n))
            (λ e. (f : Kept → Result Kept Fault) → FaultOr (list_changed f self.now list.now) e) }
    {
        match list {
            Value::Key(_) | Value::Leaf(_) => Err(Broken::Kind(Kind::Wrong)),
            Value::Frozen(branch) => Err(Broken::Kind(if branch.is_list() {
                Kind::Frozen
            } else {
                Kind::Wrong
            })),
            Value::Cell(number) => {
                if *number < self.cells.len() {
                    Ok(*number)
                } else {
                    Err(Broken::Kind(Kind::Wrong))
                }
            }
        }
    }

    /// The number of the cell that a change of a dict changes, or why there is none.
    fn dict_cell(&self, dict: &Value) -> Result<usize, Broken>
        ensures { MatchResult result (λ n. (n < length self.now) × (dict.now ≡ Value.Cell n))
            (λ e. (f : Kept → Result Kept Fault) → FaultOr (dict_changed f self.now dict.now) e) }
    {
        match dict {
            Value::Key(_) | Value::Leaf(_) => Err(Broken::Kind(Kind::Wrong)),
            Value::Frozen(branch) => Err(Broken::Kind(if branch.is_dict() {
                Kind::Frozen
            } else {
                Kind::Wrong
            })),
            Value::Cell(number) => {
                if *number < self.cells.len() {
                    Ok(*number)
                } else {
                    Err(Broken::Kind(Kind::Wrong))
                }
            }
        }
    }

    /// The number of the cell that a walk counts in, None where it counts in none, or why it is
    /// refused.
    fn walked_cell(&self, walked: &Value) -> Result<Option<usize>, Kind>
        ensures { MatchResult result (IsWalked self.now walked.now)
            (λ k. walk_begun_at self.now walked.now ≡ Err k) }
    {
        match walked {
            Value::Key(_) | Value::Leaf(_) => Err(Kind::Wrong),
            Value::Frozen(branch) => {
                if branch.is_walkable() {
                    Ok(None)
                } else {
                    Err(Kind::Wrong)
                }
            }
            Value::Cell(number) => {
                if *number < self.cells.len() {
                    Ok(Some(*number))
                } else {
                    Err(Kind::Wrong)
                }
            }
        }
    }
}

/// Puts an item last in the list of a cell.
fn push_to<'a>(cell: &mut Cell<'a>, item: Operand<'a>) -> Result<(), Broken>
    ensures { MatchResult result (λ _. pushed item.entry cell.old ≡ Ok cell.new)
        (λ e. (cell.new ≡ cell.old) × FaultOr (pushed item.entry cell.old) e) }
{
    match cell {
        Cell::List(_, walked) if *walked > 0 => Err(Broken::Kind(Kind::Iterating)),
        Cell::List(parts, _) => push(parts, item),
        _ => Err(Broken::Kind(Kind::Wrong)),
    }
}

/// Puts items last in the list of a cell.
fn join_to<'a>(cell: &mut Cell<'a>, more: Items<'a>) -> Result<(), Broken>
    ensures { MatchResult result (λ _. joined more.entry cell.old ≡ Ok cell.new)
        (λ e. (cell.new ≡ cell.old) × FaultOr (joined more.entry cell.old) e) }
{
    match cell {
        Cell::List(_, walks) if *walks > 0 => Err(Broken::Kind(Kind::Iterating)),
        Cell::List(parts, _) => join(parts, more),
        _ => Err(Broken::Kind(Kind::Wrong)),
    }
}

/// Sets an item of the list of a cell.
fn set_in<'a>(cell: &mut Cell<'a>, index: i64, item: Operand<'a>) -> Result<(), Broken>
    ensures { MatchResult result (λ _. indexed index item.entry cell.old ≡ Ok cell.new)
        (λ e. (cell.new ≡ cell.old) × FaultOr (indexed index item.entry cell.old) e) }
{
    match cell {
        Cell::List(_, walks) if *walks > 0 => Err(Broken::Kind(Kind::Iterating)),
        Cell::List(parts, _) => set(parts, index, item),
        _ => Err(Broken::Kind(Kind::Wrong)),
    }
}

/// Gives a key of the dict of a cell the value.
fn put_in<'a>(cell: &mut Cell<'a>, key: MaybeLent<'a, Key>, item: Operand<'a>) -> Result<(), Broken>
    ensures { MatchResult result (λ _. keyed key.entry item.entry cell.old ≡ Ok cell.new)
        (λ e. (cell.new ≡ cell.old) × FaultOr (keyed key.entry item.entry cell.old) e) }
{
    match cell {
        Cell::Dict(_, walks) if *walks > 0 => Err(Broken::Kind(Kind::Iterating)),
        Cell::Dict(parts, _) => put(parts, key, item),
        _ => Err(Broken::Kind(Kind::Wrong)),
    }
}

/// Puts an item last, unless there are as many as a list may have.
fn push<'a>(items: &mut HeldItems<'a>, item: Operand<'a>) -> Result<(), Broken>
    ensures { MatchResult result (λ _. pushed_items item.entry items.old ≡ Ok items.new)
        (λ e. (items.new ≡ items.old) × FaultOr (pushed_items item.entry items.old) e) }
{
    if items.len() >= LARGEST {
        return Err(Broken::Kind(Kind::Large));
    }
    items.push(item)?;
    Ok(())
}

/// Puts items last, unless there would be more than a list may have.
fn join<'a>(items: &mut HeldItems<'a>, more: Items<'a>) -> Result<(), Broken>
    ensures { MatchResult result (λ _. joined_items more.entry items.old ≡ Ok items.new)
        (λ e. (items.new ≡ items.old) × FaultOr (joined_items more.entry items.old) e) }
{
    if items.len().saturating_add(more.len()) > LARGEST {
        return Err(Broken::Kind(Kind::Large));
    }
    match items.append(more) {
        Ok(()) => Ok(()),
        Err(_) => Err(Broken::NoMemory),
    }
}

/// Sets the item that an index means, if it means one.
fn set<'a>(items: &mut HeldItems<'a>, index: i64, item: Operand<'a>) -> Result<(), Broken>
    ensures { MatchResult result (λ _. indexed_items index item.entry items.old ≡ Ok items.new)
        (λ e. (items.new ≡ items.old) × FaultOr (indexed_items index item.entry items.old) e) }
{
    match place(index, items.len()) {
        None => Err(Broken::Kind(Kind::Index)),
        Some(place) => {
            items.set(place, item)?;
            Ok(())
        }
    }
}

/// Gives a key the value, unless it would be one more than a dict may have.
fn put<'a>(
    entries: &mut HeldEntries<'a>,
    key: MaybeLent<'a, Key>,
    item: Operand<'a>,
) -> Result<(), Broken>
    ensures { MatchResult result
        (λ _. keyed_entries key.entry item.entry entries.old ≡ Ok entries.new)
        (λ e. (entries.new ≡ entries.old)
        × FaultOr (keyed_entries key.entry item.entry entries.old) e) }
{
    if entries.get().len() >= LARGEST && !entries.get().has(key.get()) {
        return Err(Broken::Kind(Kind::Large));
    }
    entries.put(key, item)?;
    Ok(())
}

/// Shares what a walk over a cell goes over.
fn share_in<'a>(cell: &mut Cell<'a>, alloc: Global) -> Result<Walked<'a>, AllocError>
    ensures same { cell.new ≡ cell.old }
    ensures ok { IfOk result (λ w. walked_values w ≡ walked_items (cell_shape (Some cell.old))) }
{
    match cell {
        Cell::List(items, _) => Ok(Walked::Items(items.share(alloc)?)),
        Cell::Tuple(items) => Ok(Walked::Items(items.share(alloc)?)),
        Cell::Dict(entries, _) => Ok(Walked::Entries(entries.share()?)),
        Cell::Instance(_, _) => Ok(Walked::Nothing),
    }
}

/// Counts a walk over a cell.
fn begin_in(cell: &mut Cell) -> Result<(), Broken>
    ensures begun { MatchResult result (λ _. walk_begun cell.old ≡ Ok cell.new)
        (λ e. (cell.new ≡ cell.old) × FaultOr (walk_begun cell.old) e) }
    ensures full { IfErr result (λ e. e ≡ Broken.NoMemory → IsFull cell.old) }
{
    match cell {
        Cell::List(_, walks) => count_up(walks),
        Cell::Dict(_, walks) => count_up(walks),
        Cell::Tuple(_) => Ok(()),
        Cell::Instance(_, _) => Err(Broken::Kind(Kind::Wrong)),
    }
}

/// One walk more. More than a `u64` counts are answered as want of memory.
fn count_up(walks: &mut u64) -> Result<(), Broken>
    ensures { MatchResult result (λ _. walks.new ≡ walks.old + 1)
        (λ e. (walks.new ≡ walks.old) × (e ≡ Broken.NoMemory) × (2 ^ 64 ≤ walks.old + 1)) }
{
    match walks.checked_add(1) {
        Some(more) => {
            *walks = more;
            Ok(())
        }
        None => Err(Broken::NoMemory),
    }
}

/// Takes a walk over a cell from its count.
fn end_in(cell: &mut Cell)
    ensures { cell.new ≡ walk_over cell.old }
{
    match cell {
        Cell::List(_, walks) => count_down(walks),
        Cell::Dict(_, walks) => count_down(walks),
        Cell::Tuple(_) => {}
        Cell::Instance(_, _) => {}
    }
}

/// One walk less, where there is one.
fn count_down(walks: &mut u64)
    ensures { walks.new ≡ walks.old - 1 }
{
    *walks = walks.saturating_sub(1);
}
