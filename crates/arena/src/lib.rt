//! An arena: values that are kept until the arena is let go of, and are lent meanwhile.
#![tactic(auto)]

ghost use Rattle.std.specs.Prelude.{◌≡◌, IfOk, ⊤};

use boxcar::slot::{OnceSlot, SlotRule};
use boxcar::tag::Tag;
use std::alloc::{AllocError, Global};
use std::cell::{Cell, OnceCell};

/// How many buckets an arena has: the one at place n has room for 2^n values.
const BUCKETS: usize = 32;

/// A place for a value, of which nothing more is asked.
type Slot<T> = OnceSlot<T, Any>;

/// What is asked of a kept value: nothing.
struct Any;

impl<T> SlotRule<T> for Any {
    ghost holds = { λ _ _. ⊤ };
}

/// Values that are kept until the arena is let go of. They stay where they are, so they are lent
/// for as long as the arena is, whatever is kept after them.
#[derive(Drop)]
pub struct Arena<T> {
    used: Cell<usize>,
    buckets: OnceCell<Vec<OnceCell<Vec<Slot<T>>>>>,
}

impl<T: Drop> Arena<T> {
    /// An arena without values. It takes no memory before the first.
    pub fn new() -> Arena<T> {
        Arena {
            used: Cell::new(0),
            buckets: OnceCell::new(),
        }
    }

    /// Keeps a value, and lends it.
    ///
    /// # Errors
    ///
    /// `AllocError` where memory was refused, or past 2^32 - 1 values. The value is let go of.
    pub fn keep(&self, alloc: Global, value: T) -> Result<&T, AllocError>
        ensures { IfOk result (λ kept. kept.now ≡ value) }
    {
        let place = self.used.get();
        let slot = self.slot(alloc, place)?;
        self.used.set(place.saturating_add(1));
        match slot.set(value) {
            Ok(kept) => Ok(kept),
            Err(_) => Err(AllocError),
        }
    }

    /// The slot at a place, in its bucket, which is made with its first slot.
    fn slot(&self, alloc: Global, place: usize) -> Result<&Slot<T>, AllocError> {
        let Some(spot) = Spot::of(place) else {
            return Err(AllocError);
        };
        let buckets = self.buckets.get_or_try_init(|| empty_buckets(alloc))?;
        let Some(bucket) = buckets.get(spot.bucket) else {
            return Err(AllocError);
        };
        let slots = bucket.get_or_try_init(|| empty_slots(alloc, spot.slots))?;
        match slots.get(spot.place) {
            Some(slot) => Ok(slot),
            None => Err(AllocError),
        }
    }
}

/// Where a value lies.
#[derive(Clone, Copy)]
struct Spot {
    /// The number of its bucket.
    bucket: usize,
    /// How many slots the bucket has.
    slots: usize,
    /// Its place among them.
    place: usize,
}

impl Spot {
    /// Where the value lies that is kept at this place, counted from 0; None past the last number.
    fn of(place: usize) -> Option<Spot> {
        let number = place.checked_add(1)?;
        let bucket = 63u32.checked_sub(number.leading_zeros())?;
        let slots = 1usize.checked_shl(bucket)?;
        Some(Spot {
            bucket: bucket as usize,
            slots,
            place: number.checked_sub(slots)?,
        })
    }
}

/// Room for the buckets of an arena: none is made yet.
fn empty_buckets<T: Drop>(alloc: Global) -> Result<Vec<OnceCell<Vec<Slot<T>>>>, AllocError> {
    let mut buckets = Vec::with_capacity(alloc, BUCKETS)?;
    for _ in 0..BUCKETS {
        buckets.push(OnceCell::new())?;
    }
    Ok(buckets)
}

/// A bucket: so many slots, without values.
fn empty_slots<T: Drop>(alloc: Global, count: usize) -> Result<Vec<Slot<T>>, AllocError> {
    let mut slots = Vec::with_capacity(alloc, count)?;
    for _ in 0..count {
        slots.push(OnceSlot::new(&Tag::empty()))?;
    }
    Ok(slots)
}
