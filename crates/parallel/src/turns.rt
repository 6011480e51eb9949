//! What each thread makes: places that it took in turn, each with what was made there.
ghost use Rattle.std.specs.Prelude.{ℕ, ◌<◌, IfOk};
ghost use Rattle.parallel.specs.Made.{AreMade};

use std::alloc::{AllocError, Global};
use std::sync::atomic::{AtomicUsize, Ordering};

/// A place, and what was made there.
pub(crate) type Made<X> = (usize, X);

/// Takes the next place that no thread has taken, until none below `count` is left, and calls `f`
/// there.
pub(crate) fn take_turns<X: Drop, F: Fn(usize) -> Result<X, AllocError>>(
    alloc: Global,
    next: &AtomicUsize,
    count: usize,
    f: &F,
) -> Result<Vec<Made<X>>, AllocError>
    requires { (i : ℕ) → i < count → F.pre f.now i }
    ensures { IfOk result (λ made. AreMade F.Fn f.now made.items) }
{
    let mut made = Vec::new(alloc);
    for _ in 0..count {
        let place = next.fetch_add(1, Ordering::SeqCst);
        if place >= count {
            return Ok(made);
        }
        let x = f(place)?;
        made.push((place, x))?;
    }
    Ok(made)
}
