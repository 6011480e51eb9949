//! Times whole runs of `pool`: how long a board takes to open and to close, and a run between, for
//! chains, layers and nodes without edges, by 1, 2, 4 and 64 workers, on a deque a worker and on
//! one locked queue.
//!
//! Without words it runs small graphs and prints whether all workers found the same outcomes, which
//! never changes. With `time` it prints for each row the milliseconds of opening and closing, and
//! the wall and the processor time of the whole run, in nanoseconds a node; with `time NAME NODES
//! MICROS WORKERS SHELF` for one row alone, so that its memory can be seen. `graph` prints how long
//! graphs take to be made, and `graph NAME NODES` one of them. The status is 1 for other words.
#![tactic(auto)]

mod rows;
mod work;

use rows::{Kind, Row, SHAPES, agree, time_graph, time_row};
use std::alloc::Global;
use std::process::ExitCode;
use std::rt::Clock;
use std::sync::Wait;
use std::thread::Threads;
use std::time::CpuClock;
use std::{env, io};
use work::steps_in;

/// How many nodes the graphs of the short form have.
const FEW: usize = 4_096;

/// How many nodes the graphs have that are timed.
const MANY: usize = 65_536;

const MOST: usize = 1_048_576;

/// How many workers there are.
const WORKERS: [usize; 4] = [1, 2, 4, 64];

/// Whether one worker and four find the same outcomes on both shelves, for each kind of graph.
fn check<R: Print + Threads + Wait + Sync>(rt: &R, alloc: Global) -> io::Result<()> {
    for shape in SHAPES {
        let row = Row { shape, nodes: FEW };
        let found = if agree(rt, alloc, &row, Kind::Deques)?
            && agree(rt, alloc, &row, Kind::Queue)?
        {
            "the same outcomes"
        } else {
            "no answer"
        };
        println!(rt; "{}: {found}", shape.name)?;
    }
    Ok(())
}

/// Times every kind of graph with so many nodes, with work of so many steps a node.
fn time<R: Print + Clock + CpuClock + Threads + Wait + Sync>(
    rt: &R,
    alloc: Global,
    nodes: usize,
    (micros, steps): (u64, u64),
) -> io::Result<()> {
    for shape in SHAPES {
        let row = Row { shape, nodes };
        for workers in WORKERS {
            time_row(rt, alloc, &row, (Kind::Deques, workers), micros, steps)?;
            time_row(rt, alloc, &row, (Kind::Queue, workers), micros, steps)?;
        }
    }
    Ok(())
}

/// Times all rows.
fn time_all<R: Print + Clock + CpuClock + Threads + Wait + Sync>(
    rt: &R,
    alloc: Global,
) -> io::Result<()> {
    let micro = steps_in(rt, 1_000)?;
    for nodes in [MANY, MOST] {
        time(rt, alloc, nodes, (0, 0))?;
        time(rt, alloc, nodes, (1, micro))?;
    }
    time(rt, alloc, MANY, (10, micro.saturating_mul(10)))
}

/// So many microseconds in nanoseconds.
fn micros_in_nanos(micros: u64) -> u64 {
    micros.saturating_mul(1_000)
}

/// Times the row that four words and a shelf name, and says whether they name one.
fn time_one<R: Print + Clock + CpuClock + Threads + Wait + Sync>(
    rt: &R,
    alloc: Global,
    (name, nodes): (&str, &str),
    (micros, workers, shelf): (&str, &str, &str),
) -> io::Result<bool> {
    let (Some(row), Some(kind)) = (Row::named(name, nodes), Kind::named(shelf)) else {
        return Ok(false);
    };
    let (Ok(micros), Ok(workers)) = (micros.parse(), workers.parse()) else {
        return Ok(false);
    };
    let steps = steps_in(rt, micros_in_nanos(micros))?;
    time_row(rt, alloc, &row, (kind, workers), micros, steps)?;
    Ok(true)
}

/// Times how long graphs of each kind take to be made, small and large.
fn time_graphs<R: Print + Clock>(rt: &R, alloc: Global) -> io::Result<()> {
    for shape in SHAPES {
        for nodes in [MANY, MOST] {
            time_graph(rt, alloc, &Row { shape, nodes })?;
        }
    }
    Ok(())
}

/// Does what the words after the program's name ask for, and says whether they ask for something.
fn run<R: Print + Clock + CpuClock + Threads + Wait + Sync>(
    rt: &R,
    alloc: Global,
    words: &[&str],
) -> io::Result<bool> {
    match words {
        [] => check(rt, alloc)?,
        ["time"] => time_all(rt, alloc)?,
        ["time", name, nodes, micros, workers, shelf] => {
            return time_one(rt, alloc, (name, nodes), (micros, workers, shelf));
        }
        ["graph"] => time_graphs(rt, alloc)?,
        ["graph", name, nodes] => match Row::named(name, nodes) {
            Some(row) => time_graph(rt, alloc, &row)?,
            None => return Ok(false),
        },
        _ => return Ok(false),
    }
    Ok(true)
}

fn main(rt: HostRuntime) -> io::Result<ExitCode> {
    let alloc = rt.alloc();
    let words: Vec<String> = env::args(&rt)?.collect(alloc)?;
    let mut shown: Vec<&str> = Vec::new(alloc);
    for word in words.iter().skip(1) {
        shown.push(word.as_str())?;
    }
    let is_known = run(&rt, alloc, shown.as_slice())?;
    Ok(ExitCode::from(if is_known { 0 } else { 1 }))
}
