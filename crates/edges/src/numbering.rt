//! New numbers for nodes, by an order of all of them.
ghost use Rattle.std.specs.Prelude.{◌≡◌, ◌<◌, ℕ, true, length, ◌++◌, map, nat_eq, IfOk, OnOk};
ghost use Rattle.std.specs.Prelude.{slice_index};
ghost use Rattle.std.specs.List.{IsDistinct};
ghost use Rattle.edges.specs.Rows.{row, has, IsGraph};
ghost use Rattle.edges.specs.Orders.{rest, replaced, IsOrder, AreNodes, ArePlaces};

use crate::adjacency::Adjacency;
use crate::countdown::count_down;
use crate::node::NodeId;
use crate::users::users_of;
use std::alloc::{AllocError, Global};

/// Puts the nodes of which something is left to count behind the others.
fn append_rest(order: &mut Vec<NodeId>, left: &[usize]) -> Result<(), AllocError>
    ensures { OnOk result (order.new.items ≡ order.old.items ++ rest left.now) }
{
    for (n, count) in left.iter().enumerate() {
        if *count != 0 {
            order.push(NodeId::of(n))?;
        }
    }
    Ok(())
}

/// All nodes, each after its dependencies, and behind them the cyclic ones; and how many are not
/// cyclic.
///
/// # Errors
///
/// `AllocError` where memory was refused.
pub fn order_of(alloc: Global, given: &Adjacency) -> Result<(Vec<NodeId>, usize), AllocError>
    requires graph { IsGraph given.now }
    ensures { IfOk result (λ r. IsOrder given.now r.0.items r.1) }
{
    let users = users_of(alloc, given)?;
    let (mut order, left) = count_down(alloc, given, &users)?;
    let acyclic = order.len();
    append_rest(&mut order, &left)?;
    Ok((order, acyclic))
}

/// The place of each node in the order.
///
/// # Errors
///
/// `AllocError` where memory was refused.
pub fn places_of(alloc: Global, order: &[NodeId]) -> Result<Vec<NodeId>, AllocError>
    requires once { IsDistinct nat_eq order.now }
    requires nodes { AreNodes order.now (length order.now) }
    ensures len { IfOk result (λ v. length v.items ≡ length order.now) }
    ensures places { IfOk result (λ v. ArePlaces order.now v.items) }
{
    let mut places = vec![in alloc; NodeId::of(0); order.len()]?;
    for (k, node) in order.iter().enumerate() {
        places[node.number()] = NodeId::of(k);
    }
    Ok(places)
}

/// Fills a list anew with the places of these nodes.
fn fill_with(list: &mut Vec<NodeId>, nodes: &[NodeId], places: &[NodeId]) -> Result<(), AllocError>
    requires inside { (d : ℕ) → has nodes.now d ≡ true → d < length places.now }
    ensures { OnOk result (list.new.items ≡ map (slice_index places.now) nodes.now) }
{
    list.clear();
    for node in nodes {
        list.push(places[node.number()])?;
    }
    Ok(())
}

/// The dependencies of each node in order, as places in the order.
///
/// # Errors
///
/// `AllocError` where memory was refused.
pub fn replace_all(
    alloc: Global,
    given: &Adjacency,
    order: &[NodeId],
    places: &[NodeId],
) -> Result<Adjacency, AllocError>
    requires nodes { AreNodes order.now (length given.now) }
    requires inside { (n d : ℕ) → has (row given.now n) d ≡ true → d < length places.now }
    ensures { IfOk result (λ a. a ≡ replaced given.now order.now places.now) }
{
    let mut deps = Adjacency::with_capacity(alloc, order.len(), given.entries())?;
    let mut list = Vec::new(alloc);
    for node in order {
        fill_with(&mut list, given.row(*node), places)?;
        deps.push(&list)?;
    }
    Ok(deps)
}
