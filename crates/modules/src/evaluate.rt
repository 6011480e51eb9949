//! How files are read and modules are evaluated.
ghost use Rattle.std.specs.Prelude.{◌≡◌, IfOk};
ghost use Rattle.std.specs.List.{list_any};
ghost use Rattle.std.specs.Str.{bytes_eq};
ghost use Rattle.modules.specs.Evaluation.{Evaluation};
ghost use Rattle.modules.specs.Tables.{known_at};

use crate::known::Known;
use loading::{Ending, FileRead};
use plain::Text;
use std::alloc::{AllocError, Global};

/// A reading of files and an evaluation of modules. `T` is what of a file is evaluated, `M` what a
/// module comes to; `S` are the kinds of syntax faults, `K` those of an evaluation's faults.
///
/// An implementation says in a ghost member what it means, `meaning`: what each file is read as,
/// which names a module binds, and what the evaluation of a module comes to with the modules that
/// are known to it.
pub trait Evaluate<T, M, S, K> {
    ghost meaning: { Self → Evaluation T M S K };

    /// The file at a path, or the kind and the line of its syntax fault.
    ///
    /// # Errors
    ///
    /// `AllocError` where memory was refused.
    fn read(&self, alloc: Global, path: &Text) -> Result<Result<FileRead<T>, (S, u64)>, AllocError>
        ensures { IfOk result (λ r. r ≡ (meaning self.now).read path.now) };

    /// Whether a module binds a name.
    fn binds(&self, value: &M, name: &Text) -> bool
        ensures { result ≡ list_any (bytes_eq name.now) ((meaning self.now).globals value.now) };

    /// What the module at a path comes to.
    ///
    /// # Errors
    ///
    /// `AllocError` where memory was refused.
    fn run(
        &self,
        alloc: Global,
        known: &Known<'_, M, S, K>,
        path: &Text,
        tree: &T,
    ) -> Result<Result<M, Ending<K>>, AllocError>
        ensures { IfOk result
            (λ r. r ≡ (meaning self.now).run (known_at known.now) path.now tree.now) };
}
