//! Requests over memory.

use crate::serving::{Served, answered};
use made_workspaces::random_workspace;
use pool::{LockShelf, NoGate};
use reporting::Report;
use request::read_workspace;
use serve::{Leftovers, OneQueue, Team, Workers, report_on_shelf};
use std::alloc::{AllocError, Global};
use std::sync::Wait;
use std::thread::Threads;
use workspace::Label;

/// The label that reaches every target of a made workspace.
const ALL: &str = "//top:all";

/// How many ticks an evaluation may use, and the word that asks for them.
const STEPS: u64 = 1_000_000_000;

const STEPS_WORD: &str = "--steps=1000000000";

/// Asks for all targets of a workspace, to be analysed by so many workers as a word says.
pub fn request<R: Threads + Wait + Sync>(
    rt: &R,
    alloc: Global,
    input: &str,
    workers: &str,
) -> Served {
    let words = ["bzlan", STEPS_WORD, workers, ALL];
    answered(rt, alloc, &words, input.as_bytes())
}

/// The report on all targets of a workspace, by 8 workers at one queue; `None` where there is none.
fn at_one_queue<R: Threads + Wait + Sync>(
    rt: &R,
    alloc: Global,
    input: String,
) -> Result<Option<Report>, AllocError> {
    let Ok(workspace) = read_workspace(alloc, input.into_bytes()) else {
        return Ok(None);
    };
    let Ok(label) = Label::read(alloc, ALL, None) else {
        return Ok(None);
    };
    let mut labels = Vec::new(alloc);
    labels.push(label)?;
    let Some(workers) = Workers::new(8) else {
        return Ok(None);
    };
    let team = Team {
        workers,
        shelving: &OneQueue { rt },
        gate: &NoGate,
        leftovers: Leftovers::Free,
    };
    let labels = labels.as_slice();
    let report = report_on_shelf::<R, LockShelf<'_, R>, OneQueue<'_, R>, NoGate>(
        rt, alloc, &workspace, labels, STEPS, &team,
    );
    Ok(report.ok())
}

/// Whether a random workspace has the same report by 1 and by 8 workers with a deque each, and by 8
/// at one queue.
fn is_same<R: Threads + Wait + Sync>(rt: &R, alloc: Global, seed: u64) -> Result<bool, AllocError> {
    let input = random_workspace(alloc, seed)?;
    let one = request(rt, alloc, input.as_str(), "--workers=1");
    let eight = request(rt, alloc, input.as_str(), "--workers=8");
    let Some(queued) = at_one_queue(rt, alloc, input)? else {
        return Ok(false);
    };
    let queued = queued.to_bytes(alloc)?;
    let are_same = one.report == eight.report && one.report == queued;
    Ok(one.ending.is_ok() && one.ending == eight.ending && are_same)
}

/// For how many random workspaces that is so, of the first so many.
pub fn count_same<R: Threads + Wait + Sync>(
    rt: &R,
    alloc: Global,
    count: u64,
) -> Result<u64, AllocError> {
    let mut same = 0u64;
    for seed in 0..count {
        if is_same(rt, alloc, seed)? {
            same = same.saturating_add(1);
        }
    }
    Ok(same)
}
