//! The modules that are known to an evaluation.
ghost use Rattle.std.specs.Prelude.{◌≡◌, None, Some, MatchOption};
ghost use Rattle.modules.specs.Tables.{module_at, known_at};

use load_graph::Paths;
use loading::{LoadFaultKind, Placed};
use plain::Text;
use std::marker::Model;

/// The modules that stand lower than the one that is evaluated. Those without a fault can be
/// loaded, and their functions called.
#[derive(Drop)]
pub struct Known<'a, M, S, K> {
    pub(crate) paths: &'a Paths,
    /// How high each module stands, by number.
    pub(crate) heights: &'a [usize],
    /// The modules that stand lower than this are known.
    pub(crate) below: usize,
    /// What the modules came to that were evaluated, by number.
    pub(crate) done: &'a [Option<Result<M, Placed<LoadFaultKind<S, K>>>>],
}

impl<'a, M, S, K> Model for Known<'a, M, S, K> {
    ghost use Rattle.std.specs.Prelude.{◌≡◌, length, Result};
    ghost use Rattle.loading.specs.Loads.{LoadFault};
    ghost use Rattle.modules.specs.Tables.{Table, lower_of};

    ghost Value = { Table (Result M (LoadFault S K)) };

    ghost view = { λ k. record {
      paths = k.paths.now;
      known = lower_of k.heights.now k.below k.done.now;
    } };

    ghost invariant = { λ k. (length k.heights.now ≡ length k.paths.now)
        × (length k.done.now ≡ length k.paths.now) };
}

impl<'a, M, S, K> Known<'a, M, S, K> {
    /// What the module at a path came to, if it stands lower. The module of this number is looked
    /// at first.
    fn module_near(
        &self,
        number: usize,
        path: &Text,
    ) -> Option<&Result<M, Placed<LoadFaultKind<S, K>>>>
        ensures { MatchOption result (module_at self.now path.now ≡ None)
            (λ r. module_at self.now path.now ≡ Some r.now) }
    {
        match self.paths.find_near(number, path) {
            Some(n) => {
                let n = n.number();
                if self.heights[n] < self.below {
                    self.done[n].as_ref()
                } else {
                    None
                }
            }
            None => None,
        }
    }

    /// What the module at a path came to, if it stands lower.
    pub(crate) fn module_at(&self, path: &Text) -> Option<&Result<M, Placed<LoadFaultKind<S, K>>>>
        ensures { MatchOption result (module_at self.now path.now ≡ None)
            (λ r. module_at self.now path.now ≡ Some r.now) }
    {
        self.module_near(usize::MAX, path)
    }

    /// The module at a path, if it stands lower and has no fault. The module of this number is
    /// looked at first: where the path is likely to be its own, nothing is searched.
    pub fn get_near(&self, number: usize, path: &Text) -> Option<&M>
        ensures { MatchOption result (known_at self.now path.now ≡ None)
            (λ m. known_at self.now path.now ≡ Some m.now) }
    {
        match self.module_near(number, path) {
            Some(Ok(value)) => Some(value),
            Some(Err(_)) | None => None,
        }
    }

    /// The module at a path, if it stands lower and has no fault.
    pub fn get(&self, path: &Text) -> Option<&M>
        ensures { MatchOption result (known_at self.now path.now ≡ None)
            (λ m. known_at self.now path.now ≡ Some m.now) }
    {
        self.get_near(usize::MAX, path)
    }
}
