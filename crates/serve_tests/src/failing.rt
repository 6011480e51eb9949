//! Devices that fail at any of their calls.
use crate::asked::{ITS_REPORT, ONE, input};
use fakes::tapes::{Failing, Page, Tape};
use pool::NoGate;
use serve::{Leftovers, ServeStop, serve};
use std::sync::Wait;
use std::test::Fail;
use std::thread::Threads;

const WORDS: [&str; 4] = ["bzlan", "--workers", "2", "//a:x"];

/// How a request ends, by devices that take a few bytes a call, of which the call of this number
/// fails.
fn ending<R: Threads + Wait + Sync + AllocGlobal>(
    rt: &R,
    input: &str,
    piece: usize,
    read: Option<u64>,
    page: &mut Page,
) -> (Result<bool, ServeStop>, u64) {
    let mut tape = Tape::new(input.as_bytes(), piece, read);
    let served = serve(
        rt,
        rt.alloc(),
        &mut tape,
        page,
        &WORDS,
        &NoGate,
        Leftovers::Free,
    );
    (served, tape.calls)
}

#[test]
fn each_read_fails(rt: HostRuntime) -> Result<(), Fail> {
    let input = input(rt.alloc(), ONE)?;
    for piece in [7usize, 100, 10_000] {
        let mut page = Page::new(rt.alloc(), 4096, None, Failing::Interrupted);
        let (served, reads) = ending(&rt, input.as_str(), piece, None, &mut page);
        assert!(rt; served == Ok(false), "pieces of {piece}");
        for call in 0..reads {
            let mut page = Page::new(rt.alloc(), 4096, None, Failing::Interrupted);
            let (served, _) = ending(&rt, input.as_str(), piece, Some(call), &mut page);
            assert!(rt; served == Err(ServeStop::Read), "read {call} of {reads}");
            assert!(rt; page.bytes.is_empty());
        }
    }
    Ok(())
}

/// Whether the request ends with a failed write, after a beginning of the report, where the call of
/// this number fails.
fn is_cut_off<R: Threads + Wait + Sync + AllocGlobal>(
    rt: &R,
    input: &str,
    piece: usize,
    call: u64,
    how: Failing,
) -> bool {
    let mut page = Page::new(rt.alloc(), piece, Some(call), how);
    let (served, _) = ending(rt, input, 4096, None, &mut page);
    served == Err(ServeStop::Write) && ITS_REPORT.as_bytes().starts_with(page.bytes.as_slice())
}

#[test]
fn each_write_and_the_flush_fail(rt: HostRuntime) -> Result<(), Fail> {
    let input = input(rt.alloc(), ONE)?;
    for piece in [1usize, 50, 10_000] {
        let mut page = Page::new(rt.alloc(), piece, None, Failing::Interrupted);
        let (served, _) = ending(&rt, input.as_str(), 4096, None, &mut page);
        assert!(rt; served == Ok(false), "pieces of {piece}");
        assert!(rt; page.bytes.as_slice() == ITS_REPORT.as_bytes());
        for call in 0..page.calls {
            let is_flush = call.saturating_add(1) == page.calls;
            let (first, other) = (Failing::Interrupted, Failing::Stalled);
            assert!(rt;
                is_cut_off(&rt, input.as_str(), piece, call, first),
                "call {call}"
            );
            let is_stalled = is_flush || is_cut_off(&rt, input.as_str(), piece, call, other);
            assert!(rt; is_stalled, "call {call} takes no byte");
        }
    }
    Ok(())
}
