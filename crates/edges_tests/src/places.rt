//! Lists that threads make, by place.
use parallel::map_places;
use std::alloc::{AllocError, Global};
use std::sync::atomic::{AtomicBool, Ordering};
use std::thread::Threads;

/// The places below a number, each made by one of so many threads.
fn places<R: Threads + Sync>(
    rt: &R,
    alloc: Global,
    count: usize,
    threads: usize,
) -> Result<Vec<usize>, AllocError> {
    map_places(
        rt,
        alloc,
        count,
        threads,
        &|place: usize| -> Result<usize, AllocError> { Ok(place) },
    )
}

/// Whether each place stands at its own place, and there are so many.
fn are_in_order(made: &[usize], count: usize) -> bool {
    made.len() == count && made.iter().enumerate().all(|(place, x)| place == *x)
}

#[test]
fn each_place_is_made_once_and_stands_at_its_own(rt: HostRuntime) -> Result<(), AllocError> {
    for count in [0, 1, 2, 3, 1000] {
        for threads in [0, 1, 2, 4, 64] {
            let made = places(&rt, rt.alloc(), count, threads)?;
            assert!(rt; are_in_order(&made, count));
        }
    }
    Ok(())
}

/// The places below a number, of which place 3 is refused memory, the first time or always.
fn refused<R: Threads + Sync>(
    rt: &R,
    alloc: Global,
    count: usize,
    always: bool,
) -> Result<Vec<usize>, AllocError> {
    let met = AtomicBool::new(false);
    map_places(
        rt,
        alloc,
        count,
        4,
        &|place: usize| -> Result<usize, AllocError> {
            if place == 3 && (always || !met.swap(true, Ordering::SeqCst)) {
                return Err(AllocError);
            }
            Ok(place)
        },
    )
}

#[test]
fn what_a_thread_was_refused_is_made_once_more(rt: HostRuntime) -> Result<(), AllocError> {
    let made = refused(&rt, rt.alloc(), 100, false)?;
    assert!(rt; are_in_order(&made, 100));
    Ok(())
}

#[test]
fn what_is_refused_again_is_no_list(rt: HostRuntime) -> Result<(), AllocError> {
    assert!(rt; refused(&rt, rt.alloc(), 100, true).is_err());
    Ok(())
}
