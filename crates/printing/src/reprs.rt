//! `str`: the text of a value in the language, with ticks.
//!
//! All of a value is visited before the size of its text is looked at. What comes after more bytes
//! than a string may have isn't written: so a value that holds one large string many times takes no
//! more memory than a few of them.
ghost use Rattle.std.specs.Prelude.{◌≡◌, ◌++◌, true, Ok, codes, length, nat_lt, option_copied};
ghost use Rattle.std.specs.Prelude.{string_bytes, MatchResult, OnOk};
ghost use Rattle.depsets.specs.Listed.{flat};
ghost use Rattle.ticks.specs.Ticking.{FaultOr, after_tick, with_count, entered};
ghost use Rattle.leaves.specs.Lent.{leaf_at};
ghost use Rattle.values.specs.Visits.{all_of};
ghost use Rattle.values.specs.Seeing.{seen, item_value, group_items, table_entries};
ghost use Rattle.leaf_texts.specs.Texts.{separator, leaf_text, key_text, entry_head};
ghost use Rattle.printing.specs.Repr.{has_text, printed_leaf, printed_entry, opening, closing};
ghost use Rattle.printing.specs.Repr.{commas, enclosed, printed, print_at, fits, string_in};
ghost use Rattle.printing.specs.Repr.{string_key, whole_at, repr_of, Prints};

use heap::Heap;
use leaf_texts::{end_of_tuple, put_key, put_leaf, put_separator};
use plain::Text;
use std::alloc::{AllocError, Global};
use values::{Broken, Group, Item, Key, Kind, LeafRef, Seen, Table, Ticks, VISITED_LEVELS};

/// How many bytes a string has at most. (This project's own limit.)
pub const LARGEST_TEXT: usize = 1_048_576;

/// What `str` gives: of a string the string itself, and of every other value its text. Each value
/// that is visited costs a tick, a key of a dict too.
///
/// # Errors
///
/// `steps` at the tick past the limit; `deep` at a value at depth 65; `type` at a value that is no
/// None, bool, number, string, list, tuple, dict, label or File; each value is tested in this
/// order. At the end `large` where there are more than `LARGEST_TEXT` bytes. `NoMemory` where
/// memory was refused. After a `Broken` the ticks are open.
pub fn repr(alloc: Global, item: Item<'_>, heap: &Heap, ticks: &mut Ticks) -> Result<String, Broken>
    ensures { MatchResult result (λ s. repr_of heap.now (item_value item.entry) ticks.old
        ≡ Ok (string_bytes s, ticks.new)) (λ e. FaultOr
        (repr_of heap.now (item_value item.entry) ticks.old) e) }
{
    let mut out = String::new(alloc);
    if let Err(broken) = put_whole(alloc, VISITED_LEVELS, item, heap, ticks, &mut out) {
        return Err(broken);
    }
    if is_full(&out) {
        return Err(Broken::Kind(Kind::Large));
    }
    Ok(out)
}

/// Whether a text has more bytes than a string may have.
fn is_full(out: &String) -> bool
    ensures { result ≡ nat_lt LARGEST_TEXT (length (string_bytes out.now)) }
{
    out.len() > LARGEST_TEXT
}

/// Appends a text.
fn put_text(out: &mut String, text: &str) -> Result<(), AllocError>
    ensures { OnOk result (fits (string_bytes out.new) ≡ fits (string_bytes out.old ++ text.now)) }
{
    if is_full(out) {
        return Ok(());
    }
    out.push_str(text)
}

/// Appends what stands before the part at a place.
fn put_comma(out: &mut String, place: usize) -> Result<(), AllocError>
    ensures { OnOk result (fits (string_bytes out.new)
        ≡ fits (string_bytes out.old ++ separator place)) }
{
    if is_full(out) {
        return Ok(());
    }
    put_separator(out, place)
}

/// Appends what stands before the value of a dict's entry.
fn put_entry_head(out: &mut String, key: &Key) -> Result<(), AllocError>
    ensures { OnOk result (fits (string_bytes out.new)
        ≡ fits (string_bytes out.old ++ entry_head key.now)) }
{
    if is_full(out) {
        return Ok(());
    }
    put_key(out, key)?;
    out.push_str(": ")
}

/// Whether a leaf has a text in the language.
fn can_be_printed(leaf: LeafRef<'_>) -> bool
    ensures { result ≡ has_text (leaf_at leaf.entry) }
{
    matches!(leaf, LeafRef::None | LeafRef::Label(_) | LeafRef::File(_))
}

/// Appends a leaf that has a text.
fn put_printed(alloc: Global, leaf: LeafRef<'_>, out: &mut String) -> Result<(), AllocError>
    requires { has_text (leaf_at leaf) ≡ true }
    ensures { OnOk result (fits (string_bytes out.new)
        ≡ fits (string_bytes out.old ++ leaf_text flat (leaf_at leaf.entry))) }
{
    if is_full(out) {
        return Ok(());
    }
    put_leaf(alloc, out, leaf)
}

/// Appends a key.
fn put_shown_key(key: &Key, out: &mut String) -> Result<(), AllocError>
    ensures { OnOk result (fits (string_bytes out.new)
        ≡ fits (string_bytes out.old ++ key_text key.now)) }
{
    if is_full(out) {
        return Ok(());
    }
    put_key(out, key)
}

/// Appends a key that is visited.
fn put_key_text(key: &Key, ticks: &Ticks, out: &mut String) -> Result<(), Broken>
    ensures { Prints (Ok (key_text key.now, ticks.now)) result (string_bytes out.old)
        (string_bytes out.new) ticks.now }
{
    put_shown_key(key, out)?;
    Ok(())
}

/// Appends a leaf, if it has a text.
fn put_plain(
    alloc: Global,
    leaf: LeafRef<'_>,
    ticks: &Ticks,
    out: &mut String,
) -> Result<(), Broken>
    ensures { Prints (with_count (printed_leaf (leaf_at leaf.entry)) ticks.now) result
        (string_bytes out.old) (string_bytes out.new) ticks.now }
{
    if !can_be_printed(leaf) {
        return Err(Broken::Kind(Kind::Wrong));
    }
    put_printed(alloc, leaf, out)?;
    Ok(())
}

/// The string that a value shows, if it is one.
fn text_in<'b>(shown: &Seen<'b, '_>) -> Option<&'b Text>
    ensures { option_copied result ≡ string_in (seen shown.now) }
{
    match shown {
        Seen::Key(key) => text_of_key(key),
        _ => None,
    }
}

fn text_of_key<'a>(key: &'a Key) -> Option<&'a Text>
    ensures { option_copied result ≡ string_key key.now }
{
    match key {
        Key::Text(text) => Some(text),
        _ => None,
    }
}

/// The visit of a string, which is itself.
fn put_itself(left: u32, text: &Text, ticks: &mut Ticks, out: &mut String) -> Result<(), Broken>
    ensures { Prints (after_tick (entered left ticks.old) (λ d. Ok (text.now, d))) result
        (string_bytes out.old) (string_bytes out.new) ticks.new }
{
    ticks.enter(left)?;
    put_text(out, text.as_str())?;
    Ok(())
}

/// Appends a string itself, and of every other value its text.
fn put_whole(
    alloc: Global,
    left: u32,
    item: Item<'_>,
    heap: &Heap,
    ticks: &mut Ticks,
    out: &mut String,
) -> Result<(), Broken>
    ensures { Prints (whole_at left heap.now (item_value item.entry) ticks.old) result
        (string_bytes out.old) (string_bytes out.new) ticks.new }
{
    let shown = (&*heap).see_item(item);
    match text_in(&shown) {
        Some(text) => put_itself(left, text, ticks, out),
        None => put_within(alloc, left, item, heap, ticks, out),
    }
}

/// Appends the text of a value, with this many levels left.
#[cycle(repr)]
fn put_within(
    alloc: Global,
    left: u32,
    item: Item<'_>,
    heap: &Heap,
    ticks: &mut Ticks,
    out: &mut String,
) -> Result<(), Broken>
    ensures { Prints (print_at left heap.now (item_value item.entry) ticks.old) result
        (string_bytes out.old) (string_bytes out.new) ticks.new }
{
    if let Err(kind) = ticks.enter(left) {
        return Err(Broken::Kind(kind));
    }
    let shown = (&*heap).see_item(item);
    put_shown(alloc, left - 1, &shown, heap, ticks, out)
}

/// Appends the text of what a value shows.
#[cycle(repr)]
fn put_shown(
    alloc: Global,
    left: u32,
    shown: &Seen<'_, '_>,
    heap: &Heap,
    ticks: &mut Ticks,
    out: &mut String,
) -> Result<(), Broken>
    ensures { Prints (printed (entered left) (print_at left heap.now) (seen shown.now) ticks.old)
        result (string_bytes out.old) (string_bytes out.new) ticks.new }
{
    match shown {
        Seen::Key(key) => put_key_text(key, ticks, out),
        Seen::Leaf(leaf) => put_plain(alloc, *leaf, ticks, out),
        Seen::List(items) => put_sequence(alloc, left, true, items, heap, ticks, out),
        Seen::Tuple(items) => put_sequence(alloc, left, false, items, heap, ticks, out),
        Seen::Dict(entries) => put_dict(alloc, left, entries, heap, ticks, out),
        Seen::Instance(_, _) => Err(Broken::Kind(Kind::Wrong)),
        Seen::Nothing => Err(Broken::Kind(Kind::Wrong)),
    }
}

/// How the text of a list or of a tuple begins.
fn start_of(is_list: bool) -> &'static str
    ensures { result.now ≡ opening is_list }
{
    if is_list { "[" } else { "(" }
}

/// How the text of a list or of a tuple of so many items ends.
fn end_of(is_list: bool, items: usize) -> &'static str
    ensures { result.now ≡ closing is_list items }
{
    if is_list { "]" } else { end_of_tuple(items) }
}

/// Appends a list or a tuple.
#[cycle(repr)]
fn put_sequence(
    alloc: Global,
    left: u32,
    is_list: bool,
    items: &Group<'_, '_>,
    heap: &Heap,
    ticks: &mut Ticks,
    out: &mut String,
) -> Result<(), Broken>
    ensures { Prints (enclosed (opening is_list) (closing is_list (length (group_items items.now)))
        (commas (all_of (print_at left heap.now) (group_items items.now) ticks.old))) result
        (string_bytes out.old) (string_bytes out.new) ticks.new }
{
    put_text(out, start_of(is_list))?;
    if let Err(broken) = put_items(alloc, left, items, heap, ticks, out) {
        return Err(broken);
    }
    put_text(out, end_of(is_list, items.len()))?;
    Ok(())
}

/// Appends items from left to right, with commas between them.
#[cycle(repr)]
fn put_items(
    alloc: Global,
    left: u32,
    items: &Group<'_, '_>,
    heap: &Heap,
    ticks: &mut Ticks,
    out: &mut String,
) -> Result<(), Broken>
    ensures { Prints (commas (all_of (print_at left heap.now) (group_items items.now) ticks.old))
        result (string_bytes out.old) (string_bytes out.new) ticks.new }
{
    for i in 0..items.len() {
        put_comma(out, i)?;
        if let Err(broken) = put_within(alloc, left, items.item(i), heap, ticks, out) {
            return Err(broken);
        }
    }
    Ok(())
}

/// Appends a dict.
#[cycle(repr)]
fn put_dict(
    alloc: Global,
    left: u32,
    entries: &Table<'_, '_>,
    heap: &Heap,
    ticks: &mut Ticks,
    out: &mut String,
) -> Result<(), Broken>
    ensures { Prints (enclosed (codes "{") (codes "}")
        (commas (all_of (printed_entry (entered left) (print_at left heap.now))
        (table_entries entries.now) ticks.old))) result (string_bytes out.old)
        (string_bytes out.new) ticks.new }
{
    put_text(out, "{")?;
    if let Err(broken) = put_entries(alloc, left, entries, heap, ticks, out) {
        return Err(broken);
    }
    put_text(out, "}")?;
    Ok(())
}

/// Appends entries in order, with commas between them.
#[cycle(repr)]
fn put_entries(
    alloc: Global,
    left: u32,
    entries: &Table<'_, '_>,
    heap: &Heap,
    ticks: &mut Ticks,
    out: &mut String,
) -> Result<(), Broken>
    ensures { Prints (commas (all_of (printed_entry (entered left) (print_at left heap.now))
        (table_entries entries.now) ticks.old)) result (string_bytes out.old) (string_bytes out.new)
        ticks.new }
{
    for i in 0..entries.len() {
        let Some((key, value)) = entries.at(i) else {
            return Ok(());
        };
        put_comma(out, i)?;
        if let Err(broken) = put_entry(alloc, left, key, value, heap, ticks, out) {
            return Err(broken);
        }
    }
    Ok(())
}

/// The visit of a key, and the text of its value behind that of the key.
#[cycle(repr)]
fn put_entry(
    alloc: Global,
    left: u32,
    key: &Key,
    value: Item<'_>,
    heap: &Heap,
    ticks: &mut Ticks,
    out: &mut String,
) -> Result<(), Broken>
    ensures { Prints (printed_entry (entered left) (print_at left heap.now)
        (key.now, item_value value.entry) ticks.old) result (string_bytes out.old)
        (string_bytes out.new) ticks.new }
{
    ticks.enter(left)?;
    put_entry_head(out, key)?;
    put_within(alloc, left, value, heap, ticks, out)
}
