//! Equality of values.
ghost use Rattle.std.specs.Prelude.{◌≡◌, ◌<◌, ◌&&◌, [], ◌∷◌, Ok, Err, Some};
ghost use Rattle.std.specs.Prelude.{MatchResult};
ghost use Rattle.std.specs.Str.{bytes_eq};
ghost use Rattle.leaves.specs.Leaves.{same_key};
ghost use Rattle.ticks.specs.Ticking.{SaysKind};
ghost use Rattle.leaves.specs.Lent.{leaf_at};
ghost use Rattle.values.specs.Seeing.{seen, item_value, option_value, group_items, table_entries};
ghost use Rattle.values.specs.Seeing.{slot_values};
ghost use Rattle.visits.specs.Equal.{equal_at, compared, leaf_equal, same_object, pairs_equal};
ghost use Rattle.visits.specs.Equal.{items_equal, entries_equal, slot_equal, same_given};

use heap::Heap;
use values::{
    FileRef, Group, Item, Key, Kind, LeafRef, Object, Seen, Slots, Table, Ticks, VISITED_LEVELS,
};

/// Whether two values are equal, wherever they lie. A pair that is visited costs a tick.
///
/// # Errors
///
/// `steps` at the tick past the limit; `deep` at a pair at depth 65; `type` where two values of a
/// type that isn't compared meet; each pair is tested in this order. It takes no memory. After a
/// fault the ticks are open.
pub fn equal(a: Item<'_>, b: Item<'_>, heap: &Heap, ticks: &mut Ticks) -> Result<bool, Kind>
    ensures { SaysKind (equal_at VISITED_LEVELS heap.now (item_value a.entry) (item_value b.entry)
        ticks.old) result ticks.new }
{
    equal_within(VISITED_LEVELS, a, b, heap, ticks)
}

/// Whether two keys are one.
fn keys(a: &Key, b: &Key) -> bool
    ensures { result ≡ same_key a.now b.now }
{
    *a == *b
}

/// Whether two objects of the language are one.
fn objects(a: Object, b: Object) -> bool
    ensures { result ≡ same_object a b }
{
    a == b
}

/// Whether two Files are one.
fn files(a: &FileRef, b: &FileRef) -> bool
    ensures { result ≡ (bytes_eq a.now.path b.now.path && bytes_eq a.now.owner b.now.owner) }
{
    a.path == b.path && a.owner == b.owner
}

/// Whether two leaves are equal.
fn leaves(a: LeafRef<'_>, b: LeafRef<'_>) -> Result<bool, Kind>
    ensures { MatchResult result (λ r. leaf_equal (leaf_at a.entry) (leaf_at b.entry) ≡ Ok r)
        (λ k. (k ≡ Kind.Wrong)
        × (leaf_equal (leaf_at a.entry) (leaf_at b.entry) ≡ Err Kind.Wrong)) }
{
    match (a, b) {
        (LeafRef::None, LeafRef::None) => Ok(true),
        (LeafRef::Label(x), LeafRef::Label(y)) => Ok(*x == *y),
        (LeafRef::File(x), LeafRef::File(y)) => Ok(files(x.get(), y.get())),
        (LeafRef::Function(x), LeafRef::Function(y)) => Ok(x.get().is_same(y.get())),
        (LeafRef::Provider(x), LeafRef::Provider(y)) => Ok(x.get().is_same(y.get())),
        (LeafRef::Rule(x), LeafRef::Rule(y)) => Ok(x.get().is_same(y.get())),
        (LeafRef::Depset(_), LeafRef::Depset(_)) => Err(Kind::Wrong),
        (LeafRef::BuiltIn(_), LeafRef::BuiltIn(_)) => Err(Kind::Wrong),
        (LeafRef::Attribute(_), LeafRef::Attribute(_)) => Err(Kind::Wrong),
        (LeafRef::Target(_), LeafRef::Target(_)) => Err(Kind::Wrong),
        (LeafRef::Object(x), LeafRef::Object(y)) => {
            if objects(x, y) {
                Err(Kind::Wrong)
            } else {
                Ok(false)
            }
        }
        _ => Ok(false),
    }
}

/// Whether two values are equal, with this many levels left.
#[cycle(equal)]
fn equal_within(
    left: u32,
    a: Item<'_>,
    b: Item<'_>,
    heap: &Heap,
    ticks: &mut Ticks,
) -> Result<bool, Kind>
    ensures { SaysKind (equal_at left heap.now (item_value a.entry) (item_value b.entry) ticks.old)
        result ticks.new }
{
    if let Err(kind) = ticks.enter(left) {
        return Err(kind);
    }
    let x = (&*heap).see_item(a);
    let y = (&*heap).see_item(b);
    shapes(left - 1, &x, &y, heap, ticks)
}

/// Whether what two values show is equal.
#[cycle(equal)]
fn shapes(
    left: u32,
    a: &Seen<'_, '_>,
    b: &Seen<'_, '_>,
    heap: &Heap,
    ticks: &mut Ticks,
) -> Result<bool, Kind>
    ensures { SaysKind (compared (equal_at left heap.now) (seen a.now) (seen b.now) ticks.old)
        result ticks.new }
{
    match (a, b) {
        (Seen::Key(x), Seen::Key(y)) => Ok(keys(x, y)),
        (Seen::Leaf(x), Seen::Leaf(y)) => leaves(*x, *y),
        (Seen::List(xs), Seen::List(ys)) => groups(left, xs, ys, heap, ticks),
        (Seen::Tuple(xs), Seen::Tuple(ys)) => groups(left, xs, ys, heap, ticks),
        (Seen::Dict(xs), Seen::Dict(ys)) => tables(left, xs, ys, heap, ticks),
        (Seen::Instance(p, xs), Seen::Instance(q, ys)) => {
            if p.is_same(q) && have_same_fields(xs, ys) {
                slots(left, xs, ys, heap, ticks)
            } else {
                Ok(false)
            }
        }
        _ => Ok(false),
    }
}

/// Whether two groups of items are equal: by length, and then pair by pair until a pair differs.
#[cycle(equal)]
fn groups(
    left: u32,
    xs: &Group<'_, '_>,
    ys: &Group<'_, '_>,
    heap: &Heap,
    ticks: &mut Ticks,
) -> Result<bool, Kind>
    ensures { SaysKind (items_equal (equal_at left heap.now) (group_items xs.now)
        (group_items ys.now) ticks.old) result ticks.new }
{
    if xs.len() != ys.len() {
        return Ok(false);
    }
    for i in 0..xs.len() {
        let x = xs.item(i);
        let y = ys.item(i);
        match equal_within(left, x, y, heap, ticks) {
            Err(kind) => return Err(kind),
            Ok(false) => return Ok(false),
            Ok(true) => {}
        }
    }
    Ok(true)
}

/// Whether two tables are equal: by length, and then each entry of the left with the right's value
/// of its key.
#[cycle(equal)]
fn tables(
    left: u32,
    xs: &Table<'_, '_>,
    ys: &Table<'_, '_>,
    heap: &Heap,
    ticks: &mut Ticks,
) -> Result<bool, Kind>
    ensures { SaysKind (entries_equal (equal_at left heap.now) (table_entries xs.now)
        (table_entries ys.now) ticks.old) result ticks.new }
{
    if xs.len() != ys.len() {
        return Ok(false);
    }
    for i in 0..xs.len() {
        let Some((key, x)) = xs.at(i) else {
            return Ok(true);
        };
        let Some(y) = ys.get(key) else {
            return Ok(false);
        };
        match equal_within(left, x, y, heap, ticks) {
            Err(kind) => return Err(kind),
            Ok(false) => return Ok(false),
            Ok(true) => {}
        }
    }
    Ok(true)
}

/// Whether a field was given in both or in neither.
fn are_alike(x: Option<Item<'_>>, y: Option<Item<'_>>) -> bool
    ensures { result ≡ same_given (option_value x.entry ∷ []) (option_value y.entry ∷ []) }
{
    match (x, y) {
        (Some(_), Some(_)) => true,
        (None, None) => true,
        _ => false,
    }
}

/// Whether the same fields were given, field by field.
fn have_same_fields(xs: &Slots<'_, '_>, ys: &Slots<'_, '_>) -> bool
    ensures { result ≡ same_given (slot_values xs.now) (slot_values ys.now) }
{
    if xs.len() != ys.len() {
        return false;
    }
    for i in 0..xs.len() {
        let x = xs.slot(i);
        let y = ys.slot(i);
        if !are_alike(x, y) {
            return false;
        }
    }
    true
}

/// Whether the fields of two instances are equal, of which the same were given: field by field
/// until two differ.
#[cycle(equal)]
fn slots(
    left: u32,
    xs: &Slots<'_, '_>,
    ys: &Slots<'_, '_>,
    heap: &Heap,
    ticks: &mut Ticks,
) -> Result<bool, Kind>
    ensures { SaysKind (pairs_equal (slot_equal (equal_at left heap.now)) (slot_values xs.now)
        (slot_values ys.now) ticks.old) result ticks.new }
{
    for i in 0..xs.len().min(ys.len()) {
        let x = xs.slot(i);
        let y = ys.slot(i);
        match both_slots(left, x, y, heap, ticks) {
            Err(kind) => return Err(kind),
            Ok(false) => return Ok(false),
            Ok(true) => {}
        }
    }
    Ok(true)
}

/// Whether the values of a field are equal, where both have it.
#[cycle(equal)]
fn both_slots(
    left: u32,
    x: Option<Item<'_>>,
    y: Option<Item<'_>>,
    heap: &Heap,
    ticks: &mut Ticks,
) -> Result<bool, Kind>
    ensures { SaysKind (slot_equal (equal_at left heap.now) (option_value x.entry)
        (option_value y.entry) ticks.old) result ticks.new }
{
    match (x, y) {
        (Some(x), Some(y)) => equal_within(left, x, y, heap, ticks),
        _ => Ok(true),
    }
}
