//! A graph with the users of each node beside its dependencies. The lists may come from anywhere:
//! that they fit each other is tested once, so no proof about how they are made is needed.
ghost use Rattle.std.specs.Prelude.{◌≡◌, ◌<◌, length, IfSome};
ghost use Rattle.board.specs.Rule.{plan_in};
ghost use Rattle.board.specs.Journal.{deps};
ghost use Rattle.board_tests.specs.Graph.{IsGraph};

use crate::lists::{all_ascending, all_inside, mirrors};
use std::marker::Model;

/// A plan, and the users of each node.
#[derive(Drop)]
pub struct Graph {
    plan: Vec<Vec<usize>>,
    users: Vec<Vec<usize>>,
}

impl Model for Graph {
    ghost use Rattle.board.specs.Rule.{plan_in};
    ghost use Rattle.board_tests.specs.Graph.{GraphView, IsGraph};

    ghost Value = { GraphView };

    ghost view = { λ g. record { plan = plan_in g.plan.items; users = plan_in g.users.items } };

    ghost invariant = { λ g. IsGraph (plan_in g.plan.items) (plan_in g.users.items) };
}

impl Graph {
    /// The graph of these lists, if they fit each other.
    pub fn of(plan: Vec<Vec<usize>>, users: Vec<Vec<usize>>) -> Option<Graph>
        ensures { IfSome result (λ g. g.plan ≡ plan_in plan.items) }
    {
        let fits = plan.len() == users.len()
            && all_ascending(plan.as_slice())
            && all_ascending(users.as_slice())
            && all_inside(plan.as_slice())
            && all_inside(users.as_slice())
            && mirrors(plan.as_slice(), users.as_slice())
            && mirrors(users.as_slice(), plan.as_slice());
        if fits {
            Some(Graph { plan, users })
        } else {
            None
        }
    }

    /// How many nodes there are.
    pub fn nodes(&self) -> usize
        ensures { result ≡ length self.now.plan }
    {
        self.plan.len()
    }

    /// The plan, for a board.
    pub fn plan(&self) -> &[Vec<usize>]
        ensures value { plan_in result.now ≡ self.now.plan }
        ensures graph { IsGraph self.now.plan self.now.users }
    {
        self.plan.as_slice()
    }

    /// The nodes on which `n` depends.
    pub fn deps(&self, n: usize) -> &[usize]
        requires { n < length self.now.plan }
        ensures value { result.now ≡ deps self.now.plan n }
        ensures graph { IsGraph self.now.plan self.now.users }
    {
        self.plan[n].as_slice()
    }

    /// The nodes that depend on `n`.
    pub fn users(&self, n: usize) -> &[usize]
        requires { n < length self.now.plan }
        ensures value { result.now ≡ deps self.now.users n }
        ensures graph { IsGraph self.now.plan self.now.users }
    {
        self.users[n].as_slice()
    }
}
