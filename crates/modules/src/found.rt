//! What is found at the path that a load statement names.
ghost use Rattle.std.specs.Prelude.{◌≡◌};
ghost use Rattle.modules.specs.Found.{found_seen, without_fault};

use crate::known::Known;
use plain::Text;

/// What is found at a path.
pub(crate) enum Found<'a, M> {
    /// No module.
    Missing,
    /// A module with a fault.
    Failed,
    /// A module.
    Module(&'a M),
}

/// Modules that load statements find by path.
pub(crate) trait Find<M, S, K> {
    ghost use Rattle.std.specs.Prelude.{Option, Result};
    ghost use Rattle.loading.specs.Loads.{Path, LoadFault};

    ghost at: { Self → Path → Option (Result M (LoadFault S K)) };

    /// What is found at a path.
    fn found(&self, path: &Text) -> Found<'_, M>
        ensures { found_seen result ≡ without_fault (at self.now path.now) };
}

impl<'a, M, S, K> Find<M, S, K> for Known<'a, M, S, K> {
    ghost use Rattle.modules.specs.Tables.{module_at};

    ghost at = { module_at };

    fn found(&self, path: &Text) -> Found<'_, M> {
        match self.module_at(path) {
            Some(Ok(value)) => Found::Module(value),
            Some(Err(_)) => Found::Failed,
            None => Found::Missing,
        }
    }
}
