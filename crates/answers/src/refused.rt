//! Why there is no report.
ghost use Rattle.std.specs.Prelude.{◌≡◌, ◌≢◌};

use graph::GraphRefused;
use pool::Refused;
use std::alloc::AllocError;

/// Why there is no report on labels.
#[derive(Clone, Copy, Debug, PartialEq, Eq)]
pub enum NoReport {
    /// More labels are reached than [`NODE_LIMIT`](crate::NODE_LIMIT).
    TooMany,
    /// Memory was refused.
    NoMemory,
    /// A thread was refused, or the memory to start it.
    NoThread,
}

impl From<AllocError> for NoReport {
    ghost use Rattle.answers.specs.declared.refused.NoReport.TheVariants.{NoMemory};

    ghost from_gives = { λ _ r. r ≡ NoMemory };

    fn from(_error: AllocError) -> NoReport {
        NoReport::NoMemory
    }
}

/// Why there is no report, where there is no graph.
pub(crate) fn without_graph(refused: GraphRefused) -> NoReport
    ensures many { result ≡ NoReport.TooMany → refused ≡ GraphRefused.TooMany }
    ensures threads { result ≢ NoReport.NoThread }
{
    match refused {
        GraphRefused::TooMany => NoReport::TooMany,
        GraphRefused::NoMemory => NoReport::NoMemory,
    }
}

/// Why there is no report, where a run was refused something.
pub(crate) fn without_run(refused: Refused) -> NoReport
    ensures few { result ≢ NoReport.TooMany }
    ensures threads { result ≡ NoReport.NoThread → refused ≡ Refused.NoThread }
{
    match refused {
        Refused::NoMemory => NoReport::NoMemory,
        Refused::NoThread => NoReport::NoThread,
    }
}
