//! The loops that read all that a source has and write all of a text.

ghost use Rattle.std.specs.Prelude.{◌≡◌, ◌≢◌, ◌<◌, ◌≤◌, ◌+◌, true, false, IfOk, OnOk, OnErr, Err};
ghost use Rattle.std.specs.Prelude.{string_bytes, vec_len};
ghost use Rattle.std.specs.List.{flat_map};
ghost use Rattle.std.specs.Io.KnownBytes.{Appends, Consumes, IsAtEnd, Keeps};
ghost use Rattle.devices.specs.Devices.{Failed, GaveAtMost, GaveBytes, TakesMore};
ghost use Rattle.devices.specs.Devices.{WritesBeginning};

use crate::counted::{Sink, Source};
use std::alloc::Global;

/// The most bytes of one read.
const CHUNK: usize = 4096;

/// Why no input was read.
#[derive(Clone, Copy, Debug, PartialEq, Eq)]
pub enum InputStop {
    /// A read failed.
    Read,
    /// There is a byte past the limit; the source was read up to that byte.
    TooLong,
    /// Memory for the input was refused.
    NoMemory,
}

/// One read, of at most `room` bytes, which are put at the end of `input`. It says whether there
/// were any.
fn read_some<S: Source>(source: &mut S, input: &mut Vec<u8>, room: usize) -> Result<bool, InputStop>
    requires { 0 < room }
    ensures ok { IfOk result (λ more. TakesMore (S.remaining source.old) (S.remaining source.new)
        input.old.items input.new.items more) }
    ensures within { OnOk result (vec_len input.new ≤ vec_len input.old + room) }
    ensures counted { result ≢ Err InputStop.Read
        → S.failures source.new ≡ S.failures source.old }
    ensures failed { result ≡ Err InputStop.Read
        → Failed (S.failures source.old) (S.failures source.new) }
    ensures kept { result ≡ Err InputStop.Read
        → Keeps (S.remaining source.old) (S.remaining source.new) }
    ensures most { GaveAtMost (S.remaining source.old) (S.remaining source.new) room }
    ensures not_long { result ≡ Err InputStop.TooLong → ⊥ }
{
    let mut chunk = [0u8; CHUNK];
    let room = room.min(CHUNK);
    match source.read(&mut chunk[..room]) {
        Ok(n) => match input.extend_from_slice(&chunk[..n]) {
            Ok(()) => Ok(n > 0),
            Err(_) => Err(InputStop::NoMemory),
        },
        Err(_) => Err(InputStop::Read),
    }
}

/// All that a source has, read to its end or to the first byte past `limit` of them.
///
/// # Errors
///
/// `Read` at the first read that fails, before any byte past the limit is read; `TooLong` at the
/// first byte past it; `NoMemory` where memory was refused. Whatever it answers, no byte past that
/// one is read.
pub fn read_input<S: Source>(
    alloc: Global,
    source: &mut S,
    limit: usize,
) -> Result<Vec<u8>, InputStop>
    ensures whole { IfOk result
        (λ v. Consumes (S.remaining source.old) (S.remaining source.new) v.items) }
    ensures limit { IfOk result (λ v. vec_len v ≤ limit) }
    ensures end { OnOk result (IsAtEnd (S.remaining source.new)) }
    ensures counted { result ≢ Err InputStop.Read
        → S.failures source.new ≡ S.failures source.old }
    ensures read_only { result ≡ Err InputStop.Read
        → Failed (S.failures source.old) (S.failures source.new) }
    ensures read_within { result ≡ Err InputStop.Read
        → GaveAtMost (S.remaining source.old) (S.remaining source.new) limit }
    ensures long_only { result ≡ Err InputStop.TooLong
        → GaveBytes (S.remaining source.old) (S.remaining source.new) (limit + 1) }
    ensures most { GaveAtMost (S.remaining source.old) (S.remaining source.new) (limit + 1) }
{
    let mut input = Vec::new(alloc);
    while input.len() <= limit {
        let room = (limit - input.len()).saturating_add(1);
        match read_some(source, &mut input, room) {
            Ok(true) => {}
            Ok(false) => return Ok(input),
            Err(stop) => return Err(stop),
        }
    }
    Err(InputStop::TooLong)
}

/// A write or a flush failed, or a write took no byte.
#[derive(Clone, Copy, Debug, PartialEq, Eq)]
pub struct WriteFailed;

/// Writes a whole text.
fn write_whole<K: Sink>(sink: &mut K, text: &[u8]) -> Result<(), WriteFailed>
    ensures ok { OnOk result (Appends (K.contents sink.old) (K.contents sink.new) text.now) }
    ensures counted { OnOk result (K.failures sink.new ≡ K.failures sink.old) }
    ensures beginning { OnErr result
        (WritesBeginning (K.contents sink.old) (K.contents sink.new) text.now) }
    ensures failed { OnErr result (Failed (K.failures sink.old) (K.failures sink.new)) }
    ensures unflushed { OnErr result (K.flushed sink.new ≡ false) }
{
    let mut at = 0;
    while at < text.len() {
        match sink.write(&text[at..]) {
            Ok(0) => return Err(WriteFailed),
            Ok(n) => at += n,
            Err(_) => return Err(WriteFailed),
        }
    }
    Ok(())
}

/// Hands on what was written.
fn flush<K: Sink>(sink: &mut K) -> Result<(), WriteFailed>
    ensures kept { Keeps (K.contents sink.old) (K.contents sink.new) }
    ensures counted { OnOk result (K.failures sink.new ≡ K.failures sink.old) }
    ensures flushed { OnOk result (K.flushed sink.new ≡ true) }
    ensures failed { OnErr result (Failed (K.failures sink.old) (K.failures sink.new)) }
    ensures unflushed { OnErr result (K.flushed sink.new ≡ false) }
{
    match sink.flush() {
        Ok(()) => Ok(()),
        Err(_) => Err(WriteFailed),
    }
}

/// Writes a whole text, and then flushes.
///
/// # Errors
///
/// `WriteFailed` at the first call that fails or takes no byte; then a beginning of the text was
/// written, and the last call was no flush that succeeded.
pub fn write_all<K: Sink>(sink: &mut K, text: &[u8]) -> Result<(), WriteFailed>
    ensures ok { OnOk result (Appends (K.contents sink.old) (K.contents sink.new) text.now) }
    ensures counted { OnOk result (K.failures sink.new ≡ K.failures sink.old) }
    ensures flushed { OnOk result (K.flushed sink.new ≡ true) }
    ensures beginning { OnErr result
        (WritesBeginning (K.contents sink.old) (K.contents sink.new) text.now) }
    ensures failed { OnErr result (Failed (K.failures sink.old) (K.failures sink.new)) }
    ensures unflushed { OnErr result (K.flushed sink.new ≡ false) }
{
    write_whole(sink, text)?;
    flush(sink)
}

/// Writes texts, one after the other.
fn write_each<K: Sink>(sink: &mut K, texts: &[String]) -> Result<(), WriteFailed>
    ensures ok { OnOk result
        (Appends (K.contents sink.old) (K.contents sink.new) (flat_map string_bytes texts.now)) }
    ensures counted { OnOk result (K.failures sink.new ≡ K.failures sink.old) }
    ensures beginning { OnErr result (WritesBeginning (K.contents sink.old)
        (K.contents sink.new) (flat_map string_bytes texts.now)) }
    ensures failed { OnErr result (Failed (K.failures sink.old) (K.failures sink.new)) }
    ensures unflushed { OnErr result (K.flushed sink.new ≡ false) }
{
    for text in texts {
        if let Err(failed) = write_whole(sink, text.as_bytes()) {
            return Err(failed);
        }
    }
    Ok(())
}

/// Writes texts, one after the other, and then flushes.
///
/// # Errors
///
/// `WriteFailed` at the first call that fails or takes no byte; then a beginning of the texts was
/// written, and the last call was no flush that succeeded.
pub fn write_parts<K: Sink>(sink: &mut K, texts: &[String]) -> Result<(), WriteFailed>
    ensures ok { OnOk result
        (Appends (K.contents sink.old) (K.contents sink.new) (flat_map string_bytes texts.now)) }
    ensures counted { OnOk result (K.failures sink.new ≡ K.failures sink.old) }
    ensures flushed { OnOk result (K.flushed sink.new ≡ true) }
    ensures beginning { OnErr result (WritesBeginning (K.contents sink.old)
        (K.contents sink.new) (flat_map string_bytes texts.now)) }
    ensures failed { OnErr result (Failed (K.failures sink.old) (K.failures sink.new)) }
    ensures unflushed { OnErr result (K.flushed sink.new ≡ false) }
{
    write_each(sink, texts)?;
    flush(sink)
}
