//! A request that is served over memory.

use fakes::tapes::{Failing, Page, Tape};
use pool::NoGate;
use serve::{Leftovers, ServeStop, serve};
use std::alloc::Global;
use std::sync::Wait;
use std::thread::Threads;

/// How many bytes a call reads or writes at most.
const PIECE: usize = 65_536;

/// What came of a request.
#[derive(Drop)]
pub struct Served {
    /// How it ended.
    pub ending: Result<bool, ServeStop>,
    /// What was written.
    pub report: Vec<u8>,
}

/// Serves the request of these words, the program's name first, and an input.
pub fn answered<R: Threads + Wait + Sync>(
    rt: &R,
    alloc: Global,
    words: &[&str],
    input: &[u8],
) -> Served {
    let mut tape = Tape::new(input, PIECE, None);
    let mut page = Page::new(alloc, PIECE, None, Failing::Interrupted);
    let ending = serve(
        rt,
        alloc,
        &mut tape,
        &mut page,
        words,
        &NoGate,
        Leftovers::Free,
    );
    Served {
        ending,
        report: page.bytes,
    }
}
