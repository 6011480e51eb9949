//! The lines that are printed.

use std::io;
use std::rt::Clock;
use std::time::Instant;

/// When something starts that is timed; None where nothing is.
pub fn begin<R: Clock>(rt: &R, timed: bool) -> Option<Instant> {
    if timed { Instant::now(rt).ok() } else { None }
}

/// What was done and how often, and how long each took, if it was timed.
pub fn report<R: Print + Clock>(
    rt: &R,
    name: &str,
    done: u64,
    start: Option<Instant>,
) -> io::Result<()> {
    let Some(start) = start else {
        return println!(rt; "{name}: {done}");
    };
    let each = start.elapsed(rt)?.as_nanos() / u128::from(done.max(1));
    println!(rt; "{name}: {done}, {each} ns each")
}
