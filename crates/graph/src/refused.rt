//! Why there is no graph.
ghost use Rattle.std.specs.Prelude.{◌≡◌};

use std::alloc::AllocError;

/// Why labels gave no graph.
#[derive(Clone, Copy, Debug, PartialEq, Eq)]
pub enum GraphRefused {
    /// More labels are reached than a limit.
    TooMany,
    /// Memory for the graph was refused.
    NoMemory,
}

impl From<AllocError> for GraphRefused {
    ghost use Rattle.graph.specs.declared.refused.GraphRefused.TheVariants.{NoMemory};

    ghost from_gives = { λ _ r. r ≡ NoMemory };

    fn from(_error: AllocError) -> GraphRefused {
        GraphRefused::NoMemory
    }
}
