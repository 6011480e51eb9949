//! Reading and writing over streams that give and take little, or fail at any of their calls.

use devices::{Counted, InputStop, WriteFailed, read_input, write_all};
use fakes::tapes::{Failing, Page, Tape};
use std::alloc::Global;
use std::io::BufWriter;
use std::test::Fail;

/// How many reads an input takes in pieces of so many bytes; None where it isn't read whole.
fn reads(alloc: Global, piece: usize) -> Option<u64> {
    let mut tape = Tape::new(b"an input", piece, None);
    match read_input(alloc, &mut tape, 8) {
        Ok(input) => {
            if input.as_slice() == b"an input".as_slice() {
                Some(tape.calls)
            } else {
                None
            }
        }
        Err(_) => None,
    }
}

/// Whether an input whose read of this number fails is not read.
fn is_unread(alloc: Global, piece: usize, call: u64) -> bool {
    let mut tape = Tape::new(b"an input", piece, Some(call));
    read_input(alloc, &mut tape, 8).err() == Some(InputStop::Read)
}

/// Whether an input is read whole in pieces of so many bytes, or fails with any of its reads.
fn is_read_or_fails(alloc: Global, piece: usize) -> bool {
    let Some(reads) = reads(alloc, piece) else {
        return false;
    };
    for call in 0..reads {
        if !is_unread(alloc, piece, call) {
            return false;
        }
    }
    true
}

/// Whether an input that is too long is read to its limit.
fn is_too_long(alloc: Global) -> bool {
    let mut tape = Tape::new(b"an input and more", 3, None);
    let stop = read_input(alloc, &mut tape, 8).err();
    stop == Some(InputStop::TooLong) && tape.left == b"and more".as_slice()
}

#[test]
fn inputs_are_read_whole_or_fail(rt: HostRuntime) {
    assert!(rt; is_read_or_fails(rt.alloc(), 1));
    assert!(rt; is_read_or_fails(rt.alloc(), 3));
    assert!(rt; is_read_or_fails(rt.alloc(), 10_000));
    assert!(rt; is_too_long(rt.alloc()));
}

/// Whether a text is written whole in pieces of so many bytes, by so many writes and one flush.
fn is_written(alloc: Global, piece: usize, calls: u64) -> bool {
    let mut page = Page::new(alloc, piece, None, Failing::Interrupted);
    let answer = write_all(&mut page, b"a report");
    answer.is_ok() && page.bytes.as_slice() == b"a report".as_slice() && page.calls == calls
}

/// Whether a text whose write of this number fails has a beginning that is written.
fn is_cut_off(alloc: Global, piece: usize, call: u64, how: Failing) -> bool {
    let mut page = Page::new(alloc, piece, Some(call), how);
    let answer = write_all(&mut page, b"a report");
    answer == Err(WriteFailed) && b"a report".starts_with(page.bytes.as_slice())
}

/// Whether a text is written whole in pieces of so many bytes, or fails with any of the calls, of
/// which the last is a flush.
fn is_written_or_fails(alloc: Global, piece: usize, calls: u64) -> bool {
    for call in 0..calls {
        let is_flush = call.saturating_add(1) == calls;
        let is_stalled = is_flush || is_cut_off(alloc, piece, call, Failing::Stalled);
        if !is_stalled || !is_cut_off(alloc, piece, call, Failing::Interrupted) {
            return false;
        }
    }
    is_written(alloc, piece, calls)
}

#[test]
fn texts_are_written_whole_or_fail(rt: HostRuntime) {
    assert!(rt; is_written_or_fails(rt.alloc(), 1, 9));
    assert!(rt; is_written_or_fails(rt.alloc(), 3, 4));
    assert!(rt; is_written_or_fails(rt.alloc(), 10_000, 2));
}

#[test]
fn what_a_writer_keeps_back_is_handed_on(rt: HostRuntime) -> Result<(), Fail> {
    let alloc = rt.alloc();
    let mut sink = Counted::new(BufWriter::new(alloc, Vec::new(alloc))?);
    assert!(rt; write_all(&mut sink, b"a report").is_ok());
    assert!(rt; sink.device.get_ref().as_slice() == b"a report".as_slice());
    Ok(())
}
