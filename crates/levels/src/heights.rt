//! How high nodes stand.
ghost use Rattle.std.specs.Prelude.{◌≡◌, ◌<◌, ◌≤◌, length, map, slice_index, IfOk};
ghost use Rattle.edges.specs.Rows.{row};
ghost use Rattle.edges.specs.Walks.{OnCycle};
ghost use Rattle.loading.specs.Modules.{above_all};
ghost use Rattle.levels.specs.Levels.{AreBounded, AreHeights};

use crate::order::order_by;
use components::Components;
use edges::NodeId;
use std::alloc::{AllocError, Global};

/// How high a node stands, where what it depends on has its height.
fn height_of(components: &Components, heights: &[usize], n: NodeId) -> usize
    requires node { n < length components.now.deps }
    requires size { length heights.now ≡ length components.now.deps }
    requires bounded { AreBounded components.now.numbers heights.now }
    ensures cyclic { OnCycle (row components.now.deps) n → result ≡ 0 }
    ensures other { (OnCycle (row components.now.deps) n → ⊥)
        → result ≡ above_all (map (slice_index heights.now) (row components.now.deps n)) }
    ensures bounded { result ≤ slice_index components.now.numbers n }
{
    let own = components.number(n);
    let mut height: usize = 0;
    for d in components.deps().row(n) {
        if components.number(*d) == own {
            return 0;
        }
        height = height.max(heights[d.number()] + 1);
    }
    height
}

/// How high each node stands: 0 where it depends on none or is on a cycle, else one more than the
/// highest of those that it depends on.
///
/// # Errors
///
/// `AllocError` where memory was refused.
pub fn heights_of(alloc: Global, components: &Components) -> Result<Vec<usize>, AllocError>
    ensures { IfOk result (λ v. AreHeights components.now.deps v.items) }
{
    let order = order_by(alloc, components.numbers())?;
    let mut heights = vec![in alloc; 0; components.deps().len()]?;
    for n in &order {
        let height = height_of(components, &heights, NodeId::of(*n));
        heights[*n] = height;
    }
    Ok(heights)
}
