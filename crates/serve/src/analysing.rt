//! The analysis of a workspace: what becomes of the requested labels, as a report.

ghost use Rattle.std.specs.Prelude.{◌≡◌, ◌↔◌, ◌⊎◌, ◌<◌, IfOk, Err};
ghost use Rattle.answers.specs.Reports.{AnswersIn, IsTooMany};

use crate::stops::AnalyseStop;
use answers::{NoReport, report_on};
use parallel::Workers;
use pool::Gate;
use std::alloc::Global;
use std::sync::Wait;
use std::thread::Threads;
use workspace::{Label, Workspace};

/// The report on the requested labels and all that they depend on, under a limit of steps for each
/// evaluation.
///
/// Its bytes are the answer's, and depend on the workspace, the labels and the limit alone. `rt` is
/// the permission to start threads and to wait. The labels are analysed by so many workers, one in
/// the thread that calls and the others in threads of their own, which have ended when this
/// returns. The gate is called round each label that isn't cyclic, by the worker that analyses it.
///
/// # Errors
///
/// `Workers` exactly where the number of workers isn't one from 1 to 64. `TooMany` only where more
/// than [`NODE_LIMIT`](crate::NODE_LIMIT) labels are reached. `NoMemory` where memory was refused;
/// `NoThread` where a thread was refused, or the memory to start it, never with one worker.
pub fn analyse<R: Threads + Wait + Sync, G: Gate>(
    rt: &R,
    alloc: Global,
    workspace: &Workspace,
    labels: &[Label],
    workers: u64,
    limit: u64,
    gate: &G,
) -> Result<Vec<u8>, AnalyseStop>
    ensures ok { IfOk result
        (λ bytes. AnswersIn workspace.now labels.now limit bytes.items) }
    ensures workers { result ≡ Err AnalyseStop.Workers ↔ ((workers < 1) ⊎ (64 < workers)) }
    ensures many { result ≡ Err AnalyseStop.TooMany
        → IsTooMany workspace.now labels.now limit }
    ensures threads { result ≡ Err AnalyseStop.NoThread → 1 < workers }
{
    let Some(workers) = Workers::new(workers) else {
        return Err(AnalyseStop::Workers);
    };
    match report_on(rt, alloc, workspace, labels, workers, limit, gate) {
        Ok(report) => match report.to_bytes(alloc) {
            Ok(bytes) => Ok(bytes),
            Err(_) => Err(AnalyseStop::NoMemory),
        },
        Err(NoReport::TooMany) => Err(AnalyseStop::TooMany),
        Err(NoReport::NoMemory) => Err(AnalyseStop::NoMemory),
        Err(NoReport::NoThread) => Err(AnalyseStop::NoThread),
    }
}
