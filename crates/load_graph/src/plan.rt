//! The order in which modules are evaluated.
ghost use Rattle.std.specs.Prelude.{IfOk};
ghost use Rattle.components.specs.Components.{AreInside};
ghost use Rattle.load_graph.specs.Plan.{IsPlan};

use components::Components;
use edges::Adjacency;
use levels::{heights_of, order_by};
use std::alloc::{AllocError, Global};

/// Who loads whom, how high each module stands above those that it loads, and the modules in
/// ascending order of their heights.
#[derive(Drop)]
pub struct Plan {
    /// Who loads whom, and the component of each module: the modules of one lead to each other
    /// along loads.
    pub components: Components,
    /// How high each module stands, by number; 0 where it loads none or is on a cycle.
    pub heights: Vec<usize>,
    /// The numbers of the modules, lower ones first.
    pub order: Vec<usize>,
}

impl Plan {
    /// The plan for modules that load each other so.
    ///
    /// # Errors
    ///
    /// `AllocError` where memory was refused.
    pub fn of(alloc: Global, deps: Adjacency) -> Result<Plan, AllocError>
        requires inside { AreInside deps }
        ensures { IfOk result (λ p. IsPlan deps p.components p.heights.items p.order.items) }
    {
        let components = Components::of(alloc, deps)?;
        let heights = heights_of(alloc, &components)?;
        let order = order_by(alloc, &heights)?;
        Ok(Plan {
            components,
            heights,
            order,
        })
    }
}
