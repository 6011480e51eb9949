//! All that a module leaves.
ghost use Rattle.std.specs.Prelude.{◌≡◌, Ok, MatchResult};
ghost use Rattle.ticks.specs.Ticking.{FaultOr};
ghost use Rattle.evaluation.specs.Runs.{all_frozen};

use crate::freezing::{freeze_defaults, freeze_globals};
use heap::Heap;
use operations::Defaults;
use std::alloc::Global;
use targets::Sequence;
use values::{Broken, Frozen, Operand, Ticks};

/// The frozen values of a module's globals, and of the defaults of its functions.
#[derive(Drop)]
pub struct Left {
    /// The globals, in the order in which they are bound.
    pub globals: Vec<Option<Frozen>>,
    /// The defaults of each function, by number.
    pub defaults: Sequence<Sequence<Frozen>>,
}

/// First all globals are frozen, then all defaults.
///
/// # Errors
///
/// `steps`, `deep` and `type`, as freezing has them; `NoMemory` where memory was refused. After a
/// `Broken` the ticks are open.
pub fn freeze_all(
    alloc: Global,
    heap: &Heap,
    globals: &[Option<Operand<'_>>],
    defaults: &Defaults,
    ticks: &mut Ticks,
) -> Result<Left, Broken>
    ensures { MatchResult result
        (λ l. all_frozen heap.now globals.now defaults.now ticks.old
        ≡ Ok ((l.globals.items, l.defaults), ticks.new))
        (λ e. FaultOr (all_frozen heap.now globals.now defaults.now ticks.old) e) }
{
    let globals = freeze_globals(alloc, globals, heap, ticks)?;
    let defaults = freeze_defaults(alloc, defaults, heap, ticks)?;
    Ok(Left { globals, defaults })
}
