//! One pass at work on the nodes of a graph.
ghost use Rattle.std.specs.Prelude.{◌≡◌, ◌<◌, ◌≤◌, length, None};
ghost use Rattle.board.specs.Journal.{times, HasSentAll};
ghost use Rattle.board.specs.Views.{IsPassOf, IsHeld, IsUnsent, knows};

use crate::graph::Graph;
use board::{Board, NoMemory, Pass, Published};

/// How often a worker goes over the nodes before it gives up.
const TURNS: usize = 1_000_000;

/// One more than the sum of the dependencies' values, modulo 2^64. A node's own value, and one that
/// isn't there yet, count for nothing.
fn value_of(board: &Board<u64>, pass: &mut Pass<u64>, graph: &Graph, n: usize) -> u64
    requires pass { IsPassOf board.now pass.old × (board.now.plan ≡ graph.now.plan) }
    requires node { n < length graph.now.plan }
    ensures pass { IsPassOf board.now pass.new }
    ensures fresh { knows pass.new n ≡ knows pass.old n }
    ensures stays { pass.new.journal ≡ record pass.old.journal { seen = pass.new.journal.seen } }
{
    let deps = graph.deps(n);
    let mut sum = 1u64;
    for i in 0..deps.len() {
        let d = deps[i];
        if d != n {
            sum = sum.wrapping_add(board.read(pass, d).copied().unwrap_or(0));
        }
    }
    sum
}

/// Delivers the edges to all users of a node.
fn deliver_to_users<V>(
    board: &Board<V>,
    pass: &mut Pass<V>,
    published: &mut Published,
    graph: &Graph,
    n: usize,
)
    requires pass { IsPassOf board.now pass.old × (board.now.plan ≡ graph.now.plan) }
    requires node { (n < length graph.now.plan) × (published.old.node ≡ n) }
    requires held { IsHeld pass.old n × IsUnsent pass.old n }
    ensures pass { IsPassOf board.now pass.new × IsHeld pass.new n }
    ensures same { published.new ≡ published.old }
    ensures whole { HasSentAll graph.now.plan n pass.new.journal }
{
    let users = graph.users(n);
    for i in 0..users.len() {
        board.deliver(pass, published, users[i]);
    }
}

/// The rest of a node that this pass started: its value is published, delivered and finished.
pub fn complete<V: Drop>(
    board: &Board<V>,
    pass: &mut Pass<V>,
    graph: &Graph,
    n: usize,
    value: V,
) -> Result<(), NoMemory>
    requires pass { IsPassOf board.now pass.old × (board.now.plan ≡ graph.now.plan) }
    requires node { n < length graph.now.plan }
    requires started { (0 < times n pass.old.journal.started) × (knows pass.old n ≡ None) }
    ensures { IsPassOf board.now pass.new }
{
    match board.publish(pass, n, value) {
        Ok(mut published) => {
            deliver_to_users(board, pass, &mut published, graph, n);
            board.finish(pass, published);
            Ok(())
        }
        Err((value, refused)) => {
            drop(value);
            Err(refused)
        }
    }
}

/// A node from its start to its end, if it can be started. Whether it was.
pub fn work(
    board: &Board<u64>,
    pass: &mut Pass<u64>,
    graph: &Graph,
    n: usize,
) -> Result<bool, NoMemory>
    requires pass { IsPassOf board.now pass.old × (board.now.plan ≡ graph.now.plan) }
    requires node { n < length graph.now.plan }
    ensures { IsPassOf board.now pass.new }
{
    let Ok(()) = board.start(pass, n) else {
        return Ok(false);
    };
    let value = value_of(board, pass, graph, n);
    complete(board, pass, graph, n, value)?;
    Ok(true)
}

/// The nodes below `end`, each tried once. How many were done.
fn turn(board: &Board<u64>, pass: &mut Pass<u64>, graph: &Graph, end: usize) -> usize
    requires pass { IsPassOf board.now pass.old × (board.now.plan ≡ graph.now.plan) }
    requires end { end ≤ length graph.now.plan }
    ensures { IsPassOf board.now pass.new }
{
    let mut done = 0usize;
    for n in 0..end {
        if let Ok(true) = work(board, pass, graph, n) {
            done = done.saturating_add(1);
        }
    }
    done
}

/// A pass, and how many nodes it did.
pub type Worked = (Pass<u64>, usize);

/// The nodes below `end`, again and again until all of them are finished. At most `TURNS` times.
pub fn work_through(board: &Board<u64>, mut pass: Pass<u64>, graph: &Graph, end: usize) -> Worked
    requires pass { IsPassOf board.now pass × (board.now.plan ≡ graph.now.plan) }
    requires end { end ≤ length graph.now.plan }
    ensures { IsPassOf board.now result.0 }
{
    let mut done = 0usize;
    for _ in 0..TURNS {
        done = done.saturating_add(turn(board, &mut pass, graph, end));
        if board.left(&mut pass) <= (graph.nodes() - end) as u64 {
            break;
        }
    }
    (pass, done)
}
