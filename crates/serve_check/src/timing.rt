//! How long requests take.

use crate::requests::request;
use crate::workloads::{Workload, all};
use std::alloc::Global;
use std::io;
use std::rt::Clock;
use std::sync::Wait;
use std::thread::Threads;
use std::time::{CpuClock, Instant};

/// The numbers of workers, as words ask for them.
const WORKERS: [&str; 3] = ["--workers=1", "--workers=2", "--workers=4"];

/// How many times each request is served; the best time counts.
const ROUNDS: usize = 3;

/// Serves a request, and gives its wall and processor time in microseconds, and the length of the
/// report.
fn time_once<R: Clock + CpuClock + Threads + Wait + Sync>(
    rt: &R,
    alloc: Global,
    input: &str,
    workers: &str,
) -> io::Result<(u128, u128, usize)> {
    let used = rt.process_cpu_time()?;
    let start = Instant::now(rt)?;
    let length = request(rt, alloc, input, workers).report.len();
    let wall = start.elapsed(rt)?.as_micros();
    let used = rt.process_cpu_time()?.saturating_sub(used).as_micros();
    Ok((wall, used, length))
}

/// Prints the best times of a workspace by so many workers.
fn time_workers<R: Print + Clock + CpuClock + Threads + Wait + Sync>(
    rt: &R,
    alloc: Global,
    workload: Workload,
    input: &str,
    workers: &str,
) -> io::Result<()> {
    let mut best = time_once(rt, alloc, input, workers)?;
    for _ in 1..ROUNDS {
        best = best.min(time_once(rt, alloc, input, workers)?);
    }
    let (wall, used, length) = best;
    println!(rt;
        "{workload} {workers}: {} ms, {} ms of processors, a report of {length} bytes",
        wall / 1000,
        used / 1000
    )
}

/// Prints the best times of a workspace: by each number of workers where it has many targets, and
/// else by one.
fn time_workload<R: Print + Clock + CpuClock + Threads + Wait + Sync>(
    rt: &R,
    alloc: Global,
    workload: Workload,
) -> io::Result<()> {
    let input = workload.input(alloc)?;
    let most = if workload.has_many_targets() {
        WORKERS.len()
    } else {
        1
    };
    for workers in WORKERS.iter().take(most) {
        time_workers(rt, alloc, workload, input.as_str(), workers)?;
    }
    Ok(())
}

/// Prints the times of the workspaces of this name, or of all where there is none, and says whether
/// there was any.
pub fn time_workloads<R: Print + Clock + CpuClock + Threads + Wait + Sync>(
    rt: &R,
    alloc: Global,
    name: Option<&str>,
) -> io::Result<bool> {
    let mut is_any = false;
    for workload in all(alloc)? {
        let own = format!(in alloc; "{workload}")?;
        if name.is_none_or(|name| name == own.as_str()) {
            time_workload(rt, alloc, workload)?;
            is_any = true;
        }
    }
    Ok(is_any)
}
