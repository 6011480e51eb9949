//! The order in which nodes have no dependency left, by a countdown of dependencies.
ghost use Rattle.std.specs.Prelude.{◌≡◌, ◌+◌, ◌-◌, ◌<◌, ◌≤◌, length, map, IfOk, OnOk, slice_index};
ghost use Rattle.std.specs.Prelude.{slice_set};
ghost use Rattle.edges.specs.Rows.{has, IsGraph, users_of, all_users};
ghost use Rattle.edges.specs.Counting.{Counting, CountedTo, next_order, zeros};

use crate::adjacency::Adjacency;
use crate::node::NodeId;
use std::alloc::{AllocError, Global};

/// How many dependencies each node has.
fn counts(alloc: Global, deps: &Adjacency) -> Result<Vec<usize>, AllocError>
    ensures { IfOk result (λ v. v.items ≡ map length deps.now) }
{
    let mut left = Vec::with_capacity(alloc, deps.len())?;
    for n in 0..deps.len() {
        left.push(deps.row(NodeId::of(n)).len())?;
    }
    Ok(left)
}

/// The nodes of which nothing is left to count, in an order with room for all nodes.
fn starts(alloc: Global, left: &[usize]) -> Result<Vec<NodeId>, AllocError>
    ensures { IfOk result (λ v. v.items ≡ zeros left.now) }
{
    let mut order = Vec::with_capacity(alloc, left.len())?;
    for (n, count) in left.iter().enumerate() {
        if *count == 0 {
            order.push(NodeId::of(n))?;
        }
    }
    Ok(order)
}

/// Counts one dependency of a node as done. The node comes next in order where it was the last.
fn lower(left: &mut [usize], order: &mut Vec<NodeId>, node: NodeId) -> Result<(), AllocError>
    requires node { node < length left.old }
    requires some { 0 < slice_index left.old node }
    ensures left { left.new ≡ slice_set left.old node (slice_index left.old node - 1) }
    ensures order { OnOk result (order.new.items ≡ next_order left.old order.old.items node) }
{
    let n = node.number();
    left[n] -= 1;
    if left[n] == 0 {
        order.push(node)?;
    }
    Ok(())
}

/// Counts a node that comes next in order as done for each of its users.
fn settle(
    deps: &Adjacency,
    left: &mut [usize],
    order: &mut Vec<NodeId>,
    users: &[NodeId],
    at: usize,
) -> Result<(), AllocError>
    requires graph { IsGraph deps.now }
    requires counting { CountedTo deps.now at order.old.items left.old }
    requires turn { at < length order.old.items }
    requires users { users.now ≡ users_of deps.now (slice_index order.old.items at) }
    ensures counting { OnOk result (CountedTo deps.now (at + 1) order.new.items left.new) }
    ensures more { OnOk result (length order.old.items ≤ length order.new.items) }
{
    let _deps = deps;
    for user in users {
        lower(left, order, *user)?;
    }
    Ok(())
}

/// The order in which nodes have no dependency left, and what is left to count of each at the end.
///
/// # Errors
///
/// `AllocError` where memory was refused.
pub fn count_down(
    alloc: Global,
    deps: &Adjacency,
    users: &Adjacency,
) -> Result<(Vec<NodeId>, Vec<usize>), AllocError>
    requires graph { IsGraph deps.now }
    requires users { users.now ≡ all_users deps.now }
    ensures { IfOk result (λ r. Counting deps.now (λ d v. has r.0.items d) r.0.items r.1.items) }
{
    let mut left = counts(alloc, deps)?;
    let mut order = starts(alloc, &left)?;
    let mut at = 0;
    while at < order.len() {
        let node = order[at];
        settle(deps, &mut left, &mut order, users.row(node), at)?;
        at += 1;
    }
    Ok((order, left))
}
