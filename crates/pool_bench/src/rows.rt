//! The graphs that are timed, and their runs.
ghost use Rattle.std.specs.Prelude.{◌≡◌, length, IfSome};

use crate::work::Busy;
use edges::{Edges, Numbered};
use fakes::graphs::layers;
use pool::{Gathered, LockShelf, NoGate, NodeId, Workers, open_board, run, run_on};
use std::alloc::{AllocError, Global};
use std::io;
use std::rt::Clock;
use std::sync::Wait;
use std::thread::Threads;
use std::time::{CpuClock, Instant};

/// A kind of graph: layers of `width` nodes, each of which depends on `degree` nodes of the layer
/// before.
#[derive(Clone, Copy)]
pub struct Shape {
    pub name: &'static str,
    pub width: usize,
    pub degree: usize,
}

/// A chain, layers of 1,000 nodes that depend on four or on ten each, and nodes without edges.
pub const SHAPES: [Shape; 4] = [
    Shape {
        name: "chain",
        width: 1,
        degree: 1,
    },
    Shape {
        name: "layers",
        width: 1_000,
        degree: 4,
    },
    Shape {
        name: "dense",
        width: 1_000,
        degree: 10,
    },
    Shape {
        name: "wide",
        width: 1,
        degree: 0,
    },
];

/// A graph of some kind with so many nodes.
#[derive(Clone, Copy)]
pub struct Row {
    pub shape: Shape,
    pub nodes: usize,
}

impl Row {
    /// The row of these words, if they name one.
    pub fn named(name: &str, nodes: &str) -> Option<Row> {
        let Ok(nodes) = nodes.parse() else {
            return None;
        };
        for shape in SHAPES {
            if shape.name == name {
                return Some(Row { shape, nodes });
            }
        }
        None
    }
}

/// On which shelf the workers of a run find their nodes.
#[derive(Clone, Copy)]
pub enum Kind {
    /// A deque a worker.
    Deques,
    /// One queue under one lock.
    Queue,
}

impl Kind {
    /// The shelf of this name, if there is one.
    pub fn named(name: &str) -> Option<Kind> {
        match name {
            "deques" => Some(Kind::Deques),
            "queue" => Some(Kind::Queue),
            _ => None,
        }
    }

    fn name(self) -> &'static str {
        match self {
            Kind::Deques => "deques",
            Kind::Queue => "queue",
        }
    }
}

fn graph_of(alloc: Global, row: &Row) -> Result<Option<Numbered>, AllocError> {
    layers(alloc, row.nodes, row.shape.width, row.shape.degree)
}

/// A run of so many workers, from 1 to 64, on such a shelf.
fn run_by<R: Threads + Wait + Sync>(
    rt: &R,
    alloc: Global,
    graph: &Edges,
    by: (Kind, usize),
    steps: u64,
) -> Option<Gathered<u64>>
    ensures { IfSome result (λ g. g.nodes ≡ length graph.now.deps) }
{
    let (kind, workers) = by;
    let workers = Workers::new(workers as u64)?;
    let busy = Busy {
        nodes: graph.nodes(),
        steps,
    };
    match kind {
        Kind::Deques => run(rt, alloc, graph, &busy, workers, &NoGate).ok(),
        Kind::Queue => {
            let ends = LockShelf::ends(rt, alloc, workers, graph.nodes()).ok()?;
            run_on(rt, alloc, graph, &busy, ends, &NoGate).ok()
        }
    }
}

/// Whether both have the same outcome for each of so many nodes.
fn are_same(one: &Gathered<u64>, other: &Gathered<u64>, nodes: usize) -> bool
    requires { (nodes ≡ one.now.nodes) × (nodes ≡ other.now.nodes) }
{
    for n in 0..nodes {
        let node = NodeId::of(n);
        if one.outcome(node) != other.outcome(node) {
            return false;
        }
    }
    true
}

/// Whether one worker, and four on such a shelf, find the same outcomes.
pub fn agree<R: Threads + Wait + Sync>(
    rt: &R,
    alloc: Global,
    row: &Row,
    kind: Kind,
) -> io::Result<bool> {
    let Some(graph) = graph_of(alloc, row)? else {
        return Ok(false);
    };
    let (Some(one), Some(four)) = (
        run_by(rt, alloc, &graph.edges, (Kind::Deques, 1), 0),
        run_by(rt, alloc, &graph.edges, (kind, 4), 0),
    ) else {
        return Ok(false);
    };
    Ok(are_same(&one, &four, graph.edges.nodes()))
}

/// How many nanoseconds it takes to open a board of the graph for so many workers, and to close it.
fn open_and_close<R: Clock>(
    rt: &R,
    alloc: Global,
    graph: &Edges,
    workers: usize,
) -> io::Result<(u128, u128)> {
    let start = Instant::now(rt)?;
    let Ok((board, passes)) = open_board::<u64>(alloc, graph, workers.min(64) + 1) else {
        return Ok((0, 0));
    };
    let opened = start.elapsed(rt)?.as_nanos();
    let start = Instant::now(rt)?;
    let closed = board.close(passes);
    let time = start.elapsed(rt)?.as_nanos();
    drop(closed);
    Ok((opened, time))
}

/// How many nanoseconds the graph of a row takes to be made, its rows among it, and how many edges
/// it has.
fn graph_times<R: Clock>(rt: &R, alloc: Global, row: &Row) -> io::Result<Option<(u128, usize)>> {
    let start = Instant::now(rt)?;
    let Some(graph) = graph_of(alloc, row)? else {
        return Ok(None);
    };
    let nanos = start.elapsed(rt)?.as_nanos();
    Ok(Some((nanos, edges_of(&graph.edges))))
}

/// Prints how long the graph of a row takes to be made, and how many edges it has.
pub fn time_graph<R: Print + Clock>(rt: &R, alloc: Global, row: &Row) -> io::Result<()> {
    let Some((nanos, edges)) = graph_times(rt, alloc, row)? else {
        return println!(rt; "no graph");
    };
    let parts = edges.saturating_add(row.nodes).max(1) as u128;
    println!(rt;
        "{} of {}: {edges} edges, made in {} ms, {} ns a node or edge",
        row.shape.name,
        row.nodes,
        nanos / 1_000_000,
        nanos / parts
    )
}

/// How many edges the graph has.
fn edges_of(graph: &Edges) -> usize {
    let mut edges: usize = 0;
    for n in 0..graph.nodes() {
        edges = edges.saturating_add(graph.deps(NodeId::of(n)).len());
    }
    edges
}

/// How many nanoseconds a run takes by the clock and of processors, and whether it has an answer.
#[derive(Clone, Copy)]
struct RunTime {
    wall: u128,
    used: u128,
    is_answered: bool,
}

/// Times a run by so many workers on such a shelf.
fn time_run<R: Clock + CpuClock + Threads + Wait + Sync>(
    rt: &R,
    alloc: Global,
    graph: &Edges,
    by: (Kind, usize),
    steps: u64,
) -> io::Result<RunTime> {
    let used = rt.process_cpu_time()?;
    let start = Instant::now(rt)?;
    let gathered = run_by(rt, alloc, graph, by, steps);
    let wall = start.elapsed(rt)?.as_nanos();
    let used = rt.process_cpu_time()?.saturating_sub(used).as_nanos();
    Ok(RunTime {
        wall,
        used,
        is_answered: gathered.is_some(),
    })
}

/// What a row takes: opening and closing a board, and a run.
#[derive(Clone, Copy)]
struct RowTime {
    opened: u128,
    closed: u128,
    run: RunTime,
}

/// Times a row, if there is a graph of it.
fn measure<R: Clock + CpuClock + Threads + Wait + Sync>(
    rt: &R,
    alloc: Global,
    row: &Row,
    by: (Kind, usize),
    steps: u64,
) -> io::Result<Option<RowTime>> {
    let Some(graph) = graph_of(alloc, row)? else {
        return Ok(None);
    };
    let (opened, closed) = open_and_close(rt, alloc, &graph.edges, by.1)?;
    let run = time_run(rt, alloc, &graph.edges, by, steps)?;
    Ok(Some(RowTime {
        opened,
        closed,
        run,
    }))
}

/// Prints the times of a row by so many workers on such a shelf.
pub fn time_row<R: Print + Clock + CpuClock + Threads + Wait + Sync>(
    rt: &R,
    alloc: Global,
    row: &Row,
    (kind, workers): (Kind, usize),
    micros: u64,
    steps: u64,
) -> io::Result<()> {
    let Some(time) = measure(rt, alloc, row, (kind, workers), steps)? else {
        return println!(rt; "no graph");
    };
    let answer = if time.run.is_answered {
        ""
    } else {
        " (no answer)"
    };
    let nodes = row.nodes.max(1) as u128;
    println!(rt;
        "{} of {}, {micros} us a node, {workers} workers, {}: open {} ms, close {} ms, run {} ns a node, processor {} ns a node{answer}",
        row.shape.name,
        row.nodes,
        kind.name(),
        time.opened / 1_000_000,
        time.closed / 1_000_000,
        time.run.wall / nodes,
        time.run.used / nodes
    )
}
