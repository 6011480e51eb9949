//! Pseudo-random graphs, against a plain slow test of what is cyclic.
ghost use Rattle.std.specs.Prelude.{◌<◌};

use edges::{Adjacency, NodeId};
use fakes::graphs::graph_of;
use std::alloc::{AllocError, Global};
use std::test::Fail;

/// Numbers that look like random ones (xorshift).
#[derive(Drop)]
struct Dice {
    state: u64,
}

impl Dice {
    /// Whether one throw in so many comes to it.
    fn hits(&mut self, rarity: u64) -> bool
        requires { 0 < rarity }
    {
        let a = self.state ^ self.state.wrapping_shl(13);
        let b = a ^ (a >> 7);
        self.state = b ^ b.wrapping_shl(17);
        self.state % rarity == 0
    }
}

/// So many nodes, with some earlier dependencies a node, and a few later ones.
fn rows(alloc: Global, dice: &mut Dice, nodes: usize) -> Result<Adjacency, AllocError> {
    let mut rows = Adjacency::with_capacity(alloc, 200, 400)?;
    let mut list = Vec::new(alloc);
    for n in 0..nodes {
        list.clear();
        for d in 0..nodes {
            let rarity = if d < n { 9 } else { 300 };
            if dice.hits(rarity) {
                list.push(NodeId::of(d))?;
            }
        }
        rows.push(&list)?;
    }
    Ok(rows)
}

/// The nodes to which a walk of at least one edge leads.
fn reached(alloc: Global, rows: &Adjacency, from: NodeId) -> Result<Vec<bool>, AllocError> {
    let mut seen = vec![in alloc; false; rows.len()]?;
    let mut open = Vec::new(alloc);
    open.push(from)?;
    for _ in 0..=rows.len() {
        let Some(node) = open.pop() else {
            break;
        };
        if node.number() >= rows.len() {
            break;
        }
        for d in rows.row(node) {
            if let Some(place) = seen.get_mut(d.number())
                && !*place
            {
                *place = true;
                open.push(*d)?;
            }
        }
    }
    Ok(seen)
}

/// Whether each node leads to one that a walk leads back to, as the definition says it.
fn plainly_cyclic(alloc: Global, rows: &Adjacency) -> Result<Vec<bool>, AllocError> {
    let mut round = Vec::new(alloc);
    for n in 0..rows.len() {
        let seen = reached(alloc, rows, NodeId::of(n))?;
        round.push(seen.get(n).copied() == Some(true))?;
    }
    let mut cyclic = Vec::new(alloc);
    for n in 0..rows.len() {
        let seen = reached(alloc, rows, NodeId::of(n))?;
        let mut is = round.get(n).copied() == Some(true);
        for (there, back) in seen.iter().zip(round.iter()) {
            is = is || *there && *back;
        }
        cyclic.push(is)?;
    }
    Ok(cyclic)
}

/// Whether some node of such a graph is cyclic, if `edges` finds the same ones.
fn agreed(alloc: Global, dice: &mut Dice, nodes: usize) -> Result<Option<bool>, AllocError> {
    let rows = rows(alloc, dice, nodes)?;
    let want = plainly_cyclic(alloc, &rows)?;
    let Some(graph) = graph_of(alloc, rows)? else {
        return Ok(None);
    };
    let mut some = false;
    for (n, name) in graph.origin.iter().enumerate() {
        if n >= graph.edges.nodes() {
            return Ok(None);
        }
        let found = graph.edges.cyclic(NodeId::of(n));
        if want.get(name.number()).copied() != Some(found) {
            return Ok(None);
        }
        some = some || found;
    }
    Ok(Some(some))
}

#[test]
fn a_thousand_graphs_agree_with_the_definition(rt: HostRuntime) -> Result<(), Fail> {
    let alloc = rt.alloc();
    let mut dice = Dice {
        state: 88_172_645_463_325_252,
    };
    let mut with_cycles = 0_u32;
    let mut without = 0_u32;
    for round in 0..1000_u32 {
        let nodes = if round % 50 == 0 {
            200
        } else {
            (round % 40) as usize
        };
        let Some(some) = agreed(alloc, &mut dice, nodes)? else {
            panic!(rt; "graph {round} differs")
        };
        if some {
            with_cycles = with_cycles.saturating_add(1);
        } else {
            without = without.saturating_add(1);
        }
    }
    assert!(rt;
        with_cycles > 100 && without > 100,
        "{with_cycles} and {without}"
    );
    Ok(())
}
