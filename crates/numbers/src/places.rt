//! Indexes.
ghost use Rattle.std.specs.Prelude.{◌≡◌, ◌<◌, IfSome};
ghost use Rattle.numbers.specs.Places.{place_of};

/// The place that an index means among so many items, from the end where it is negative; none
/// outside of them.
pub fn place(index: i64, items: usize) -> Option<usize>
    ensures place { result ≡ place_of index items }
    ensures within { IfSome result (λ place. place < items) }
{
    if index >= 0 {
        let place = index as usize;
        if place < items { Some(place) } else { None }
    } else {
        let back = index.unsigned_abs() as usize;
        items.checked_sub(back)
    }
}
