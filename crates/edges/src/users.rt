//! Who depends on each node.
ghost use Rattle.std.specs.Prelude.{◌≡◌, ◌+◌, ◌<◌, ℕ, true, length, nat_eq, IfOk, slice_index, sum};
ghost use Rattle.std.specs.List.{IsDistinct, sum_by};
ghost use Rattle.edges.specs.Rows.{has, IsGraph, all_users};
ghost use Rattle.edges.specs.Filing.{Counted, Filed, AreCounts, HaveRoom};

use crate::adjacency::Adjacency;
use crate::node::NodeId;
use crate::rooms::Rooms;
use std::alloc::{AllocError, Global};

/// Counts a user more for each node of the list.
fn count_row(counts: &mut [usize], list: &[NodeId])
    requires distinct { IsDistinct nat_eq list.now }
    requires inside { (d : ℕ) → has list.now d ≡ true → d < length counts.old }
    requires fits { (d : ℕ) → slice_index counts.old d < usize.MAX }
    ensures each { Counted list.now counts.old counts.new }
    ensures sum { sum counts.new ≡ sum counts.old + length list.now }
{
    for d in list {
        counts[d.number()] += 1;
    }
}

/// How many users each node has.
fn user_counts(alloc: Global, deps: &Adjacency) -> Result<Vec<usize>, AllocError>
    requires graph { IsGraph deps.now }
    ensures len { IfOk result (λ v. length v.items ≡ length deps.now) }
    ensures counts { IfOk result (λ v. AreCounts deps.now v.items) }
    ensures sum { IfOk result (λ v. sum v.items ≡ sum_by length deps.now) }
{
    let mut counts = vec![in alloc; 0; deps.len()]?;
    for n in 0..deps.len() {
        count_row(&mut counts, deps.row(NodeId::of(n)));
    }
    Ok(counts)
}

/// Puts a node behind the users of each node of the list.
fn file_row(users: &mut Rooms, list: &[NodeId], user: NodeId)
    requires distinct { IsDistinct nat_eq list.now }
    requires inside { (d : ℕ) → has list.now d ≡ true → d < length users.old.lists }
    requires room { HaveRoom list.now users.old }
    ensures len { length users.new.lists ≡ length users.old.lists }
    ensures each { Filed list.now user users.old.lists users.new.lists }
    ensures room { users.new.room ≡ users.old.room }
{
    for d in list {
        users.push(*d, user);
    }
}

/// The users of each node, each once and by number: two walks over all edges, one that counts and
/// one that sorts.
///
/// # Errors
///
/// `AllocError` where memory was refused.
pub fn users_of(alloc: Global, deps: &Adjacency) -> Result<Adjacency, AllocError>
    requires graph { IsGraph deps.now }
    ensures { IfOk result (λ u. u ≡ all_users deps.now) }
{
    let counts = user_counts(alloc, deps)?;
    let mut users = Rooms::of(alloc, &counts, deps.entries())?;
    for n in 0..deps.len() {
        let user = NodeId::of(n);
        file_row(&mut users, deps.row(user), user);
    }
    Ok(users.full())
}
