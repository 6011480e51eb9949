//! Membership.
ghost use Rattle.std.specs.Prelude.{Ok, Err, Some, None, is_some};
ghost use Rattle.ticks.specs.Ticking.{SaysKind};
ghost use Rattle.values.specs.Seeing.{seen, item_value, table_entries};
ghost use Rattle.operations.specs.States.{DoesKind, GivesKind};
ghost use Rattle.operations.specs.Reading.{key_in, of_type};
ghost use Rattle.operations.specs.Equality.{is_key_of};
ghost use Rattle.operations.specs.Strings.{member, held_in, part_of};

use heap::Heap;
use operations::State;
use state::{is_among, key_of, text_of};
use strings::search::is_within;
use values::{Item, Key, Kind, Seen, Table, Ticks};

/// `x in y`: of a list or a tuple an item that equals it, of a dict a key, of a string a part of
/// it.
///
/// # Errors
///
/// Those of `==`, where items are compared; else `type`, where `x` can't be in such a value. It
/// takes no memory.
pub fn member(state: &mut State, x: Item<'_>, y: Item<'_>) -> Result<bool, Kind>
    ensures { DoesKind (member (item_value x.entry) (item_value y.entry)) state.old result
        state.new }
{
    held_in(&state.heap, &mut state.ticks, x, &state.heap.see_item(y))
}

/// Whether what a value shows has a member.
fn held_in(heap: &Heap, ticks: &mut Ticks, x: Item<'_>, y: &Seen<'_, '_>) -> Result<bool, Kind>
    ensures { SaysKind (held_in heap.now (item_value x.entry) (seen y.now) ticks.old) result
        ticks.new }
{
    match y {
        Seen::List(items) => is_among(heap, ticks, x, *items),
        Seen::Tuple(items) => is_among(heap, ticks, x, *items),
        Seen::Dict(entries) => has_key(*entries, &heap.see_item(x)),
        Seen::Key(key) => has_part(key, &heap.see_item(x)),
        _ => Err(Kind::Wrong),
    }
}

/// Whether a dict has the key that a value is, or `type`.
fn has_key(entries: Table<'_, '_>, key: &Seen<'_, '_>) -> Result<bool, Kind>
    ensures { GivesKind (of_type (key_in (seen key.now)) (is_key_of (table_entries entries.entry)))
        result }
{
    match key_of(key) {
        Some(key) => Ok(entries.get(key).is_some()),
        None => Err(Kind::Wrong),
    }
}

/// Whether a string has a part, or `type`.
fn has_part(whole: &Key, part: &Seen<'_, '_>) -> Result<bool, Kind>
    ensures { GivesKind (part_of whole.now (seen part.now)) result }
{
    match (whole, text_of(part)) {
        (Key::Text(whole), Some(part)) => Ok(is_within(whole.as_str(), part.as_str())),
        _ => Err(Kind::Wrong),
    }
}
