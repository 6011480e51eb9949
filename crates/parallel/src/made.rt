//! What all threads made, in order.
ghost use Rattle.std.specs.Prelude.{◌≡◌, ℕ, ◌<◌, IfOk, None, length, replicate};
ghost use Rattle.parallel.specs.Made.{AreGiven, AreMade, AreListsMade, FitsSlot, FitSlots, MayGive};

use crate::turns::{Made, take_turns};
use std::alloc::{AllocError, Global};
use std::sync::atomic::AtomicUsize;
use std::thread::{Threads, map_indices};

/// What one thread made; its memory may have been refused.
type MadeByOne<X> = Result<Vec<Made<X>>, AllocError>;

/// So many empty slots.
fn empty_slots<X: Drop>(alloc: Global, count: usize) -> Result<Vec<Option<X>>, AllocError>
    ensures { IfOk result (λ slots. slots.items ≡ replicate count None) }
{
    let mut slots = Vec::with_capacity(alloc, count)?;
    for _ in 0..count {
        slots.push(None)?;
    }
    Ok(slots)
}

/// Puts what one thread made into the slots of its places.
fn put_made<X: Drop, F: Fn(usize) -> Result<X, AllocError>>(
    slots: &mut [Option<X>],
    made: Vec<Made<X>>,
    f: &F,
)
    requires made { AreMade F.Fn f.now made.items }
    requires slots { FitSlots F.Fn f.now slots.old }
    ensures len { length slots.new ≡ length slots.old }
    ensures slots { FitSlots F.Fn f.now slots.new }
{
    let _f = f;
    for (place, x) in made {
        if place < slots.len() {
            slots[place] = Some(x);
        }
    }
}

/// Puts what the threads made into the slots of its places.
fn put_all<X: Drop, F: Fn(usize) -> Result<X, AllocError>>(
    slots: &mut [Option<X>],
    lists: Vec<MadeByOne<X>>,
    f: &F,
)
    requires lists { AreListsMade F.Fn f.now lists.items }
    requires slots { FitSlots F.Fn f.now slots.old }
    ensures len { length slots.new ≡ length slots.old }
    ensures slots { FitSlots F.Fn f.now slots.new }
{
    for list in lists {
        if let Ok(made) = list {
            put_made(slots, made, f);
        }
    }
}

/// What so many threads make, in slots. A slot stays empty where its thread was refused memory.
#[tactic(auto, using(crate::proofs::Slots::fit_none))]
fn slots_by_threads<
    R: Threads + Sync,
    X: Send + Drop,
    F: Fn(usize) -> Result<X, AllocError> + Sync,
>(rt: &R, alloc: Global, count: usize, threads: usize, f: &F) -> Result<Vec<Option<X>>, AllocError>
    requires { (i : ℕ) → i < count → F.pre f.now i }
    ensures len { IfOk result (λ slots. length slots.items ≡ count) }
    ensures slots { IfOk result (λ slots. FitSlots F.Fn f.now slots.items) }
{
    let mut slots = empty_slots(alloc, count)?;
    let next = AtomicUsize::new(0);
    let lists = map_indices(
        rt,
        alloc,
        threads.min(count),
        &|_thread: usize| -> MadeByOne<X>
            requires { (i : ℕ) → i < count → F.pre f.now i }
            ensures { IfOk result (λ made. AreMade F.Fn f.entry.now made.items) }
        { take_turns(alloc, &next, count, f) },
    )?;
    put_all(&mut slots, lists, f);
    Ok(slots)
}

/// What stands in a slot, or is made now.
fn made_at<X: Drop, F: Fn(usize) -> Result<X, AllocError>>(
    slot: Option<X>,
    place: usize,
    f: &F,
) -> Result<X, AllocError>
    requires may { F.pre f.now place }
    requires slot { FitsSlot F.Fn f.now place slot }
    ensures { IfOk result (MayGive F.Fn f.now place) }
{
    match slot {
        Some(x) => Ok(x),
        None => f(place),
    }
}

/// What stands in the slots. What doesn't stand there yet is made now.
fn all_made<X: Drop, F: Fn(usize) -> Result<X, AllocError>>(
    alloc: Global,
    slots: Vec<Option<X>>,
    f: &F,
) -> Result<Vec<X>, AllocError>
    requires may { (i : ℕ) → i < length slots.items → F.pre f.now i }
    requires slots { FitSlots F.Fn f.now slots.items }
    ensures len { IfOk result (λ all. length all.items ≡ length slots.items) }
    ensures each { IfOk result (λ all. AreGiven F.Fn f.now all.items) }
{
    let mut all = Vec::with_capacity(alloc, slots.len())?;
    for slot in slots {
        let x = made_at(slot, all.len(), f)?;
        all.push(x)?;
    }
    Ok(all)
}

/// What `f` makes at each place below `count`, in order, made by so many threads at most: each
/// takes the next place that none has taken. With fewer than two threads the thread that calls
/// makes all.
///
/// What a thread could not keep, since memory was refused, is made once more by the thread that
/// calls.
///
/// # Errors
///
/// `AllocError` where memory was refused, here or to `f`.
#[tactic(auto, using(crate::proofs::Slots::fit_none))]
pub fn map_places<R: Threads + Sync, X: Send + Drop, F: Fn(usize) -> Result<X, AllocError> + Sync>(
    rt: &R,
    alloc: Global,
    count: usize,
    threads: usize,
    f: &F,
) -> Result<Vec<X>, AllocError>
    requires { (i : ℕ) → i < count → F.pre f.now i }
    ensures len { IfOk result (λ all. length all.items ≡ count) }
    ensures each { IfOk result (λ all. AreGiven F.Fn f.now all.items) }
{
    if threads < 2 {
        let slots = empty_slots(alloc, count)?;
        return all_made(alloc, slots, f);
    }
    let slots = slots_by_threads(rt, alloc, count, threads, f)?;
    all_made(alloc, slots, f)
}
