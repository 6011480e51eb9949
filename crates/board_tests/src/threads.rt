//! Two passes at work in threads of their own.
ghost use Rattle.std.specs.Prelude.{◌≡◌, ◌≤◌, length};
ghost use Rattle.board.specs.Views.{IsPassOf};

use crate::graph::Graph;
use crate::worker::{Worked, work_through};
use board::{Board, Pass};
use std::thread;
use std::thread::Threads;

/// Two passes in two threads, at the nodes below `end`.
pub fn in_two<R: Threads + Sync>(
    rt: &R,
    board: &Board<u64>,
    graph: &Graph,
    a: Pass<u64>,
    b: Pass<u64>,
    end: usize,
) -> (Worked, Worked)
    requires passes { IsPassOf board.now a × IsPassOf board.now b }
    requires plan { board.now.plan ≡ graph.now.plan }
    requires end { end ≤ length graph.now.plan }
    ensures { IsPassOf board.now result.0.0 × IsPassOf board.now result.1.0 }
{
    thread::join(
        rt,
        move || -> Worked
            requires { IsPassOf board.now a × (board.now.plan ≡ graph.now.plan)
                × (end ≤ length graph.now.plan) }
            ensures { IsPassOf board.entry.now result.0 }
        { work_through(board, a, graph, end) },
        move || -> Worked
            requires { IsPassOf board.now b × (board.now.plan ≡ graph.now.plan)
                × (end ≤ length graph.now.plan) }
            ensures { IsPassOf board.entry.now result.0 }
        { work_through(board, b, graph, end) },
    )
}
