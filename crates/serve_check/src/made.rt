//! Made workspaces: whether they are answered the same by any number of workers, how long they
//! take, and their texts.

use crate::requests::count_same;
use crate::timing::time_workloads;
use made_workspaces::{chained_modules, layered_targets, plain_targets, random_workspace};
use std::alloc::{AllocError, Global};
use std::io;
use std::rt::Clock;
use std::sync::Wait;
use std::thread::Threads;
use std::time::CpuClock;

/// How many random workspaces are served where no number is given.
const FEW: u64 = 300;

/// A workspace that words ask for, if they ask for one.
fn workspace(alloc: Global, words: &[&str]) -> Result<Option<String>, AllocError> {
    let made = match words {
        ["plain", count] => match count.parse() {
            Ok(count) => plain_targets(alloc, count)?,
            Err(_) => return Ok(None),
        },
        ["layers", layers, width, degree] => {
            match (layers.parse(), width.parse(), degree.parse()) {
                (Ok(layers), Ok(width), Ok(degree)) => {
                    layered_targets(alloc, layers, width, degree)?
                }
                _ => return Ok(None),
            }
        }
        ["chain", count] => match count.parse() {
            Ok(count) => chained_modules(alloc, count, false)?,
            Err(_) => return Ok(None),
        },
        ["cycle", count] => match count.parse() {
            Ok(count) => chained_modules(alloc, count, true)?,
            Err(_) => return Ok(None),
        },
        ["random", seed] => match seed.parse() {
            Ok(seed) => random_workspace(alloc, seed)?,
            Err(_) => return Ok(None),
        },
        _ => return Ok(None),
    };
    Ok(Some(made))
}

/// Serves so many random workspaces, prints for how many the reports are the same, and says whether
/// for all.
fn check<R: Print + Threads + Wait + Sync>(rt: &R, alloc: Global, count: u64) -> io::Result<bool> {
    let same = count_same(rt, alloc, count)?;
    println!(rt;
        "{same} of {count} workspaces have the same report by 1 and 8 workers and at either shelf"
    )?;
    Ok(same == count)
}

/// Serves [`FEW`] random workspaces, and says whether each has the same report whoever analyses it.
pub fn check_few<R: Print + Threads + Wait + Sync>(rt: &R, alloc: Global) -> io::Result<bool> {
    check(rt, alloc, FEW)
}

/// Does what the words after the program's name ask for, and says whether all is well.
pub fn run<R: Print + Clock + CpuClock + Threads + Wait + Sync>(
    rt: &R,
    alloc: Global,
    words: &[&str],
) -> io::Result<bool> {
    match words {
        ["same", count] => match count.parse() {
            Ok(count) => check(rt, alloc, count),
            Err(_) => Ok(false),
        },
        ["time"] => time_workloads(rt, alloc, None),
        ["time", name] => time_workloads(rt, alloc, Some(name)),
        _ => match workspace(alloc, words)? {
            Some(made) => {
                println!(rt; "{made}")?;
                Ok(true)
            }
            None => Ok(false),
        },
    }
}
