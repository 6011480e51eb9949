//! Times what an analysis does most with values: a listing of many depsets over many elements,
//! freezing small lists, comparing pairs, dicts with many string keys, what calls do with
//! functions, strings and instances, and what turns of loops do. Without the word `time` it prints
//! what was done alone, which never changes. With `time PART` it does that part alone, one of those
//! of [`Part`].
#![tactic(auto)]

mod providers;
mod rows;
mod turns;

use anyhow::Result;
use heap::Heap;
use keys::TextKey;
use plain::{Shared, Text};
use providers::provider;
use rows::{begin, report};
use std::alloc::{AllocError, Global};
use std::mem::size_of;
use std::rt::Clock;
use std::time::Instant;
use std::{env, io};
use turns::turns;
use values::{
    Broken, Cell, Depset, Element, Entries, Fields, Frozen, FunctionRef, Id, Items, Key, Leaf,
    MadeId, MaybeLent, Operand, Order, Provider, Seen, Slots, Ticks, Value,
};
use visits::{equal, freeze};

/// How many depsets stand in the chain, each over the one before.
const DEPSETS: u64 = 1_000;

/// How many elements each of them has of its own.
const ELEMENTS: u64 = 100;

/// How many small lists are frozen.
const LISTS: u64 = 100_000;

/// How many items each of the compared lists has.
const PAIRS: usize = 1_000_000;

/// How many string keys the dict has.
const KEYS: u64 = 1_000_000;

/// How many keys the small dict has that is read with keys that are made already.
const READY: u64 = 1_000;

/// How often what takes some nanoseconds is done.
const TURNS: u64 = 1_000_000;

/// How many instances are made, read and frozen in one heap.
const INSTANCES: u64 = 100_000;

/// How many heaps of few instances are made, one after the other.
const HEAPS: u64 = 10_000;

/// How many instances each of them has.
const INSTANCES_OF_A_HEAP: u64 = 10;

/// A text for the element of this number of the depset of that number.
fn key_text(alloc: Global, serial: u64, element: u64) -> Result<Text, AllocError> {
    Text::from_string(format!(in alloc; "package_{serial}/file_{element}.txt")?)
}

/// The elements of the depset of this number.
fn elements(alloc: Global, serial: u64) -> Result<Vec<Element>, AllocError> {
    let mut direct = Vec::new(alloc);
    for element in 0..ELEMENTS {
        let text = key_text(alloc, serial, element)?;
        direct.push(Element::Text(TextKey::new(text)))?;
    }
    Ok(direct)
}

/// The depset of this number over these; None where it is refused.
fn made(alloc: Global, owner: &Text, serial: u64, below: Vec<Depset>) -> Option<Depset> {
    let owner = owner.share().ok()?;
    match elements(alloc, serial) {
        Ok(direct) => {
            Depset::new(alloc, Id { owner, serial }, Order::Default, direct, below).ok()
        }
        Err(_) => None,
    }
}

/// The depset of this number over one; None where it is refused.
fn over(alloc: Global, owner: &Text, serial: u64, depset: Depset) -> Option<Depset> {
    match Vec::from_array(alloc, [depset]) {
        Ok(below) => made(alloc, owner, serial, below),
        Err(_) => None,
    }
}

/// The chain of depsets, or None where one is refused.
fn chain(alloc: Global) -> Option<Depset> {
    let owner = Text::new(alloc, "a/f.bzl").ok()?;
    let mut depset = made(alloc, &owner, 0, Vec::new(alloc))?;
    for serial in 1..DEPSETS {
        depset = over(alloc, &owner, serial, depset)?;
    }
    Some(depset)
}

/// Adds a list of this many numbers.
fn add_list(
    alloc: Global,
    heap: &mut Heap,
    values: &mut Items<'_>,
    length: usize,
) -> Result<(), Broken> {
    let mut items = Items::new(alloc);
    for _ in 0..length {
        items.push(Operand::own(Value::Key(Key::Number(7))))?;
    }
    let list = heap.new_list(items)?;
    values.push(Operand::own(list))?;
    Ok(())
}

/// Freezes a list of three numbers again and again, and gives the ticks.
fn freezes(alloc: Global, heap: &Heap, list: &Operand<'_>) -> u64 {
    let mut ticks = Ticks::new(u64::MAX);
    for _ in 0..LISTS {
        if freeze(alloc, list.item(), heap, &mut ticks).is_err() {
            return ticks.used();
        }
    }
    ticks.used()
}

/// Freezes again and again what is frozen, and gives how often.
fn freezes_again(alloc: Global, heap: &Heap, tree: &Frozen) -> u64 {
    let mut ticks = Ticks::new(u64::MAX);
    for turn in 0..LISTS {
        if freeze(alloc, tree.item(), heap, &mut ticks).is_err() {
            return turn;
        }
    }
    LISTS
}

/// Compares two long lists, and gives the ticks if they are equal.
fn compares(heap: &Heap, a: &Operand<'_>, b: &Operand<'_>) -> u64 {
    let mut ticks = Ticks::new(u64::MAX);
    match equal(a.item(), b.item(), heap, &mut ticks) {
        Ok(true) => ticks.used(),
        _ => 0,
    }
}

/// The key of this number.
fn key(alloc: Global, number: u64) -> Result<Key, AllocError> {
    let text = format!(in alloc; "//package:target_{number}")?;
    Ok(Key::Text(Text::from_string(text)?))
}

/// A dict of so many keys.
fn dict<'a>(alloc: Global, count: u64) -> Result<Entries<'a>, AllocError> {
    let mut entries = Entries::with_capacity(alloc, 0)?;
    for number in 0..count {
        let key = MaybeLent::own(key(alloc, number)?);
        entries.put(key, Operand::own(Value::Leaf(Leaf::None)))?;
    }
    Ok(entries)
}

/// How many of the keys it has.
fn reads(alloc: Global, entries: &Entries) -> Result<u64, AllocError> {
    let mut found = 0u64;
    for number in 0..KEYS {
        if entries.has(&key(alloc, number)?) {
            found = found.saturating_add(1);
        }
    }
    Ok(found)
}

/// The keys of a small dict.
fn ready_keys(alloc: Global) -> Result<Vec<Key>, AllocError> {
    let mut keys = Vec::with_capacity(alloc, READY as usize)?;
    for number in 0..READY {
        keys.push(key(alloc, number)?)?;
    }
    Ok(keys)
}

/// How many of the keys a dict has.
fn found_in(entries: &Entries, keys: &[Key]) -> u64 {
    let mut found = 0u64;
    for key in keys {
        if entries.has(key) {
            found = found.saturating_add(1);
        }
    }
    found
}

/// Reads of a small dict with keys that are made already.
fn ready_reads(entries: &Entries, keys: &[Key]) -> u64 {
    let mut found = 0u64;
    for _ in 0..TURNS / READY {
        found = found.saturating_add(found_in(entries, keys));
    }
    found
}

/// A string made of two others.
fn joined(alloc: Global, a: &str, b: &str) -> Result<Text, AllocError> {
    let mut text = String::with_capacity(alloc, a.len().saturating_add(b.len()))?;
    text.push_str(a)?;
    text.push_str(b)?;
    Text::from_string(text)
}

/// Strings made of two others, and how many bytes they have.
fn joins(alloc: Global, a: &str, b: &str) -> Result<u64, AllocError> {
    let mut bytes = 0u64;
    for _ in 0..TURNS {
        let text = joined(alloc, a, b)?;
        bytes = bytes.saturating_add(text.len() as u64);
    }
    Ok(bytes)
}

/// An instance of two fields.
fn instance(alloc: Global, heap: &mut Heap, provider: &Shared<Provider>) -> Result<Value, Broken> {
    let mut fields = Fields::with_capacity(alloc, 2)?;
    fields.push(Some(Operand::own(Value::Key(Key::Number(1)))))?;
    fields.push(Some(Operand::own(Value::Key(Key::Number(2)))))?;
    heap.new_instance(provider.share()?, fields)
}

/// Whether a value is an instance that has its second field.
fn has_second(heap: &Heap, made: &Value) -> bool {
    match heap.see_item(made.item()) {
        Seen::Instance(_, Slots::Values(fields)) => matches!(fields.get(1), Some(Some(_))),
        _ => false,
    }
}

/// Makes an instance and freezes it. Whether it has its second field.
fn is_read(
    alloc: Global,
    heap: &mut Heap,
    ticks: &mut Ticks,
    provider: &Shared<Provider>,
) -> Result<bool, Broken> {
    let made = instance(alloc, heap, provider)?;
    let has_second = has_second(heap, &made);
    freeze(alloc, made.item(), heap, ticks)?;
    Ok(has_second)
}

/// How many of so many instances in a heap of their own have their second field.
fn instances(alloc: Global, provider: &Shared<Provider>, count: u64) -> u64 {
    let mut heap = Heap::new(alloc);
    let mut ticks = Ticks::new(u64::MAX);
    let mut read = 0u64;
    for _ in 0..count {
        if let Ok(true) = is_read(alloc, &mut heap, &mut ticks, provider) {
            read = read.saturating_add(1);
        }
    }
    read
}

/// The same of many heaps. Each is given back before the next, as an evaluation gives back its own.
fn instances_of_heaps(alloc: Global, provider: &Shared<Provider>) -> u64 {
    let mut read = 0u64;
    for _ in 0..HEAPS {
        read = read.saturating_add(instances(alloc, provider, INSTANCES_OF_A_HEAP));
    }
    read
}

/// A second name of a value, put on a stack and taken off again. Whether it was there.
fn is_taken(stack: &mut Vec<Value>, value: &Value) -> Result<bool, AllocError> {
    stack.push(value.share()?)?;
    Ok(stack.pop().is_some())
}

/// Second names of a value, put on a stack and taken off again, as calls do.
fn pushes(alloc: Global, value: &Value) -> Result<u64, AllocError> {
    let mut stack = Vec::with_capacity(alloc, 8)?;
    let mut taken = 0u64;
    for _ in 0..TURNS {
        if is_taken(&mut stack, value)? {
            taken = taken.saturating_add(1);
        }
    }
    Ok(taken)
}

/// The steps of a depset's listing.
fn steps_of(alloc: Global, depset: &Depset) -> Result<u64, AllocError> {
    let listing = depset.list_whole(alloc)?;
    Ok(listing.steps)
}

/// A depset that was made, listed.
fn list<R: Print + Clock>(
    rt: &R,
    alloc: Global,
    depset: &Depset,
    start: Option<Instant>,
) -> io::Result<()> {
    report(rt, "depsets made", DEPSETS, start)?;
    let start = begin(rt, start.is_some());
    let steps = steps_of(alloc, depset)?;
    report(rt, "steps of a listing", steps, start)
}

/// The depsets: made and listed.
fn depsets<R: Print + Clock>(rt: &R, alloc: Global, timed: bool) -> io::Result<()> {
    let start = begin(rt, timed);
    match chain(alloc) {
        Some(depset) => list(rt, alloc, &depset, start),
        None => println!(rt; "no chain"),
    }
}

/// Freezes again what is frozen.
fn freeze_again<R: Print + Clock>(
    rt: &R,
    alloc: Global,
    heap: &Heap,
    tree: &Frozen,
    timed: bool,
) -> io::Result<()> {
    let start = begin(rt, timed);
    let again = freezes_again(alloc, heap, tree);
    report(rt, "long lists frozen again", again, start)
}

/// A small list frozen, and a long one frozen again and compared with another.
fn time_lists<R: Print + Clock>(
    rt: &R,
    alloc: Global,
    heap: &Heap,
    values: &[Operand<'_>],
    timed: bool,
) -> io::Result<()> {
    let [small, long, also_long] = values else {
        return println!(rt; "no lists");
    };
    let start = begin(rt, timed);
    report(rt, "values frozen", freezes(alloc, heap, small), start)?;
    match freeze(alloc, long.item(), heap, &mut Ticks::new(u64::MAX)) {
        Ok(tree) => freeze_again(rt, alloc, heap, &tree, timed)?,
        Err(_) => return println!(rt; "no frozen list"),
    }
    let start = begin(rt, timed);
    report(rt, "pairs compared", compares(heap, long, also_long), start)
}

/// A small list and two long ones.
fn three_lists<'a>(alloc: Global, heap: &mut Heap<'a>) -> Result<Items<'a>, Broken> {
    let mut values = Items::new(alloc);
    add_list(alloc, heap, &mut values, 3)?;
    add_list(alloc, heap, &mut values, PAIRS)?;
    add_list(alloc, heap, &mut values, PAIRS)?;
    Ok(values)
}

/// Small lists frozen, and two long lists compared.
fn lists<R: Print + Clock>(rt: &R, alloc: Global, timed: bool) -> io::Result<()> {
    let mut heap = Heap::new(alloc);
    match three_lists(alloc, &mut heap) {
        Ok(values) => time_lists(rt, alloc, &heap, values.as_slice(), timed),
        Err(_) => println!(rt; "no lists"),
    }
}

/// A dict that was built, read.
fn read_all<R: Print + Clock>(
    rt: &R,
    alloc: Global,
    entries: &Entries,
    start: Option<Instant>,
) -> io::Result<()> {
    report(rt, "keys put", KEYS, start)?;
    let start = begin(rt, start.is_some());
    let found = reads(alloc, entries)?;
    report(rt, "keys read", found, start)
}

/// A dict of many string keys, built and read.
fn dicts<R: Print + Clock>(rt: &R, alloc: Global, timed: bool) -> io::Result<()> {
    let start = begin(rt, timed);
    let entries = dict(alloc, KEYS)?;
    read_all(rt, alloc, &entries, start)
}

/// A small dict read with ready keys.
fn small_dict<R: Print + Clock>(rt: &R, alloc: Global, timed: bool) -> io::Result<()> {
    let keys = ready_keys(alloc)?;
    let entries = dict(alloc, READY)?;
    let start = begin(rt, timed);
    let found = ready_reads(&entries, keys.as_slice());
    report(rt, "ready keys read", found, start)
}

/// A function of a module.
fn function(alloc: Global) -> Result<Value, AllocError> {
    let id = MadeId {
        module: 0,
        number: 1,
    };
    let path = Text::new(alloc, "a/f.bzl")?;
    let name = Text::new(alloc, "f")?;
    let function = FunctionRef { id, path, name };
    Ok(Value::Leaf(Leaf::Function(Shared::new(alloc, function)?)))
}

/// A value pushed and popped.
fn push_and_pop<R: Print + Clock>(
    rt: &R,
    alloc: Global,
    name: &str,
    value: &Value,
    timed: bool,
) -> io::Result<()> {
    let start = begin(rt, timed);
    let taken = pushes(alloc, value)?;
    report(rt, name, taken, start)
}

/// Functions pushed and popped.
fn push_functions<R: Print + Clock>(rt: &R, alloc: Global, timed: bool) -> io::Result<()> {
    let function = function(alloc)?;
    push_and_pop(rt, alloc, "functions pushed and popped", &function, timed)
}

/// Numbers pushed and popped.
fn push_numbers<R: Print + Clock>(rt: &R, alloc: Global, timed: bool) -> io::Result<()> {
    let number = Value::Key(Key::Number(7));
    push_and_pop(rt, alloc, "numbers pushed and popped", &number, timed)
}

/// Values pushed and popped, and strings joined.
fn small<R: Print + Clock>(rt: &R, alloc: Global, timed: bool) -> io::Result<()> {
    push_functions(rt, alloc, timed)?;
    push_numbers(rt, alloc, timed)?;
    let start = begin(rt, timed);
    let bytes = joins(alloc, "//package", ":target")?;
    report(rt, "strings joined", bytes / 16, start)
}

/// Instances of a provider, in one heap and in heaps of a few.
fn time_instances<R: Print + Clock>(
    rt: &R,
    alloc: Global,
    provider: &Shared<Provider>,
    timed: bool,
) -> io::Result<()> {
    let start = begin(rt, timed);
    let read = instances(alloc, provider, INSTANCES);
    report(rt, "instances made, read and frozen", read, start)?;
    let start = begin(rt, timed);
    let read = instances_of_heaps(alloc, provider);
    report(rt, "instances in heaps of ten", read, start)
}

/// Instances of two fields, made, read and frozen: in one heap, whose memory is touched for the
/// first time, and in heaps of a few, which take the memory that those before gave back.
fn all_instances<R: Print + Clock>(rt: &R, alloc: Global, timed: bool) -> io::Result<()> {
    let provider = provider(alloc, &["m", "n"])?;
    time_instances(rt, alloc, &provider, timed)
}

/// How large values are.
fn sizes<R: Print>(rt: &R) -> io::Result<()> {
    let (value, cell) = (size_of::<Value>(), size_of::<Cell>());
    println!(rt; "bytes of a value: {value}\nbytes of a cell: {cell}")
}

/// The parts of the program, each with its rows.
#[derive(Clone, Copy)]
enum Part {
    Depsets,
    Lists,
    Dicts,
    SmallDict,
    Small,
    Instances,
    Turns,
}

impl Part {
    const ALL: [Part; 7] = [
        Part::Depsets,
        Part::Lists,
        Part::Dicts,
        Part::SmallDict,
        Part::Small,
        Part::Instances,
        Part::Turns,
    ];

    fn name(self) -> &'static str {
        match self {
            Part::Depsets => "depsets",
            Part::Lists => "lists",
            Part::Dicts => "dicts",
            Part::SmallDict => "small_dict",
            Part::Small => "small",
            Part::Instances => "instances",
            Part::Turns => "turns",
        }
    }
}

/// Does a part and prints its rows.
fn run<R: Print + Clock>(rt: &R, alloc: Global, part: Part, timed: bool) -> io::Result<()> {
    match part {
        Part::Depsets => depsets(rt, alloc, timed),
        Part::Lists => lists(rt, alloc, timed),
        Part::Dicts => dicts(rt, alloc, timed),
        Part::SmallDict => small_dict(rt, alloc, timed),
        Part::Small => small(rt, alloc, timed),
        Part::Instances => {
            all_instances(rt, alloc, timed)?;
            sizes(rt)
        }
        Part::Turns => turns(rt, alloc, timed),
    }
}

fn main(rt: HostRuntime) -> Result<()> {
    let alloc = rt.alloc();
    let words: Vec<String> = env::args(&rt)?.collect(alloc)?;
    let timed = words.len() > 1;
    let named = words.get(2).map(|word| word.as_str());
    for part in Part::ALL {
        if named.is_none_or(|name| name == part.name()) {
            run(&rt, alloc, part, timed)?;
        }
    }
    Ok(())
}
