//! A whole request: from the words and the input to the report that is written.

ghost use Rattle.std.specs.Prelude.{◌≡◌, ◌≢◌, ◌⊎◌, ◌<◌, IfErr, IfOk, IfSome, OnOk, Err, None};
ghost use Rattle.std.specs.Prelude.{◌+◌, map, true, false};
ghost use Rattle.devices.specs.Devices.{Failed, GaveAtMost};
ghost use Rattle.request.specs.Asked.{Asked, asked, asked_by};
ghost use Rattle.request.specs.Input.{input_limit};
ghost use Rattle.serve.specs.Requests.{AsksFor, AsksForOthers, AsksTooMany, BeginsAnswer};
ghost use Rattle.serve.specs.Requests.{OfWholeInput};
ghost use Rattle.serve.specs.Requests.{RefusesInput, SpellsNothing, WritesAnswer};
ghost use Rattle.serve.specs.RequestReports.{IsOfReport, ReportsInput, TooManyInput};

use crate::stops::ServeStop;
use answers::{Deques, Leftovers, NoReport, Team, report_on_shelf};
use devices::{InputStop, Sink, Source, WriteFailed, read_input, write_parts};
use pool::{Gate, StealShelf};
use reporting::Report;
use request::{INPUT_LIMIT, InputRefused, Request, WordsStop, read_words, read_workspace};
use std::alloc::Global;
use std::convert::AsStr;
use std::sync::Wait;
use std::thread::Threads;

/// The report on an input, which is let go before the analysis.
fn report_of<R: Threads + Wait + Sync, G: Gate>(
    rt: &R,
    alloc: Global,
    request: &Request,
    input: Vec<u8>,
    gate: &G,
    leftovers: Leftovers,
) -> Result<Report, ServeStop>
    ensures ok { IfOk result (ReportsInput (asked_by request.now) input.items) }
    ensures input_only { result ≡ Err ServeStop.Input → SpellsNothing input.items }
    ensures many_only { result ≡ Err ServeStop.TooMany
        → TooManyInput (asked_by request.now) input.items }
    ensures threads_only { result ≡ Err ServeStop.NoThread → 1 < request.now.workers }
    ensures kinds { IfErr result IsOfReport }
{
    let workspace = match read_workspace(alloc, input) {
        Ok(workspace) => workspace,
        Err(InputRefused::Illegal) => return Err(ServeStop::Input),
        Err(InputRefused::NoMemory) => return Err(ServeStop::NoMemory),
    };
    let team = Team {
        workers: request.workers,
        shelving: &Deques,
        gate,
        leftovers,
    };
    let labels = request.labels.as_slice();
    match report_on_shelf::<R, StealShelf, Deques, G>(
        rt,
        alloc,
        &workspace,
        labels,
        request.steps,
        &team,
    ) {
        Ok(report) => Ok(report),
        Err(NoReport::TooMany) => Err(ServeStop::TooMany),
        Err(NoReport::NoMemory) => Err(ServeStop::NoMemory),
        Err(NoReport::NoThread) => Err(ServeStop::NoThread),
    }
}

/// Reads the words, then the input to its end, analyses, and writes the report.
///
/// `words` are those of the command line, the program's name first. `Ok(true)` says that the report
/// has a load fault, a failed target or a conflict. `rt` is the permission to start threads and to
/// wait; what is asked for is analysed as [`analyse`](crate::analyse) says. `leftovers` says
/// what becomes of the memory of what the report was made of, before that is written.
///
/// # Errors
///
/// Found in this order: `Words` before a byte is read; `Read`; `Input`; `TooMany`; `Write`. The
/// input is read to its end or to the first byte past [`INPUT_LIMIT`]. `NoMemory` and `NoThread`
/// may stand in place of any of these that isn't found yet, `NoThread` only where the words ask for
/// more than one worker. After `Write` a beginning of the report was written, and the writer's last
/// call was no flush that succeeded; after any other refusal nothing was written.
pub fn serve<R, S, K, W, G>(
    rt: &R,
    alloc: Global,
    reader: &mut S,
    writer: &mut K,
    words: &[W],
    gate: &G,
    leftovers: Leftovers,
) -> Result<bool, ServeStop>
where
    R: Threads + Wait + Sync,
    S: Source,
    K: Sink,
    W: AsStr,
    G: Gate,
    // The answer: for a reader that tells its bytes, of just these; else of some bytes that were
    // read.
    ensures ok { IfOk result (λ loud. IfSome (S.remaining reader.old) (λ input. WritesAnswer
        (map W.text words.now) input (K.contents writer.old) (K.contents writer.new) loud)) }
    ensures whole { IfOk result (λ loud.
        OfWholeInput (S.remaining reader.old) (S.remaining reader.new) (λ input. WritesAnswer
        (map W.text words.now) input (K.contents writer.old) (K.contents writer.new) loud)) }
    ensures flushed { OnOk result (K.flushed writer.new ≡ true) }

    // Each refusal has its cause.
    ensures words_only { result ≡ Err ServeStop.Words → asked (map W.text words.now) ≡ None }
    ensures unread { result ≡ Err ServeStop.Words → reader.new ≡ reader.old }
    ensures read_only { result ≡ Err ServeStop.Read
        → Failed (S.failures reader.old) (S.failures reader.new) }
    ensures read_within { result ≡ Err ServeStop.Read
        → GaveAtMost (S.remaining reader.old) (S.remaining reader.new) input_limit }
    ensures input_only { result ≡ Err ServeStop.Input
        → IfSome (S.remaining reader.old) SpellsNothing }
    ensures input_refused { result ≡ Err ServeStop.Input
        → RefusesInput (S.remaining reader.old) (S.remaining reader.new) }
    ensures many_only { result ≡ Err ServeStop.TooMany
        → OfWholeInput (S.remaining reader.old) (S.remaining reader.new)
        (AsksTooMany (map W.text words.now)) }
    ensures threads_only { result ≡ Err ServeStop.NoThread
        → AsksForOthers (map W.text words.now) }
    ensures write_only { result ≡ Err ServeStop.Write
        → Failed (K.failures writer.old) (K.failures writer.new) }

    // Their order: whatever comes after the words has words that ask for something, and whatever
    // comes after the reads has no failed read.
    ensures words_first { IfErr result (λ e. (e ≡ ServeStop.Words) ⊎ ((e ≡ ServeStop.NoMemory)
        ⊎ ((a : Asked) × AsksFor (map W.text words.now) a))) }
    ensures reads_first { result ≢ Err ServeStop.Read
        → S.failures reader.new ≡ S.failures reader.old }
    ensures writes_last { result ≢ Err ServeStop.Write
        → K.failures writer.new ≡ K.failures writer.old }

    // What was read: whatever it answers, at most one byte past the limit of an input.
    ensures read_most { GaveAtMost (S.remaining reader.old) (S.remaining reader.new)
        (input_limit + 1) }

    // What was written.
    ensures beginning { result ≡ Err ServeStop.Write
        → OfWholeInput (S.remaining reader.old) (S.remaining reader.new) (λ input. BeginsAnswer
        (map W.text words.now) input (K.contents writer.old) (K.contents writer.new)) }
    ensures unflushed { result ≡ Err ServeStop.Write → K.flushed writer.new ≡ false }
    ensures nothing { IfErr result (λ e. e ≢ ServeStop.Write → writer.new ≡ writer.old) }
{
    let request = match read_words(alloc, words) {
        Ok(request) => request,
        Err(WordsStop::Words) => return Err(ServeStop::Words),
        Err(WordsStop::NoMemory) => return Err(ServeStop::NoMemory),
    };
    let input = match read_input(alloc, reader, INPUT_LIMIT) {
        Ok(input) => input,
        Err(InputStop::Read) => return Err(ServeStop::Read),
        Err(InputStop::TooLong) => return Err(ServeStop::Input),
        Err(InputStop::NoMemory) => return Err(ServeStop::NoMemory),
    };
    let report = match report_of(rt, alloc, &request, input, gate, leftovers) {
        Ok(report) => report,
        Err(stop) => return Err(stop),
    };
    match write_parts(writer, &report.parts) {
        Ok(()) => Ok(report.loud),
        Err(WriteFailed) => Err(ServeStop::Write),
    }
}
