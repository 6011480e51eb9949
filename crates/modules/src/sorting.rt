//! Modules that were loaded, and those that have a fault.
ghost use Rattle.std.specs.Prelude.{◌≡◌, ◌++◌, ◌∷◌, [], length, map, IfOk, OnOk};
ghost use Rattle.modules.specs.Modules.{value_in, fault_in, faults_in};

use loading::{LoadFaultKind, Placed};
use plain::Text;
use std::alloc::{AllocError, Global};

/// A file that has no value, and why.
#[derive(Drop)]
pub struct FileFault<S, K> {
    /// The file's path.
    pub path: Text,
    /// What is wrong, and where.
    pub fault: Placed<LoadFaultKind<S, K>>,
}

/// Puts what a module came to behind the others: its value, or its fault.
fn put<M: Drop, S: Drop, K: Drop>(
    values: &mut Vec<Option<M>>,
    faults: &mut Vec<FileFault<S, K>>,
    path: &Text,
    outcome: Option<Result<M, Placed<LoadFaultKind<S, K>>>>,
) -> Result<(), AllocError>
    ensures values { OnOk result
        (values.new.items ≡ values.old.items ++ value_in outcome ∷ []) }
    ensures faults { OnOk result
        (faults.new.items ≡ faults.old.items ++ fault_in path.now outcome) }
{
    match outcome {
        Some(Ok(value)) => values.push(Some(value))?,
        Some(Err(fault)) => {
            values.push(None)?;
            faults.push(FileFault {
                path: path.share()?,
                fault,
            })?;
        }
        None => values.push(None)?,
    }
    Ok(())
}

/// The values of modules, and the faults of those that have none, where it is known what each came
/// to.
pub(crate) fn sorted_out<M: Drop, S: Drop, K: Drop>(
    alloc: Global,
    paths: &[Text],
    done: Vec<Option<Result<M, Placed<LoadFaultKind<S, K>>>>>,
) -> Result<(Vec<Option<M>>, Vec<FileFault<S, K>>), AllocError>
    requires size { length done.items ≡ length paths.now }
    ensures values { IfOk result (λ r. r.0.items ≡ map value_in done.items) }
    ensures faults { IfOk result (λ r. r.1.items ≡ faults_in paths.now done.items) }
{
    let mut values = Vec::with_capacity(alloc, paths.len())?;
    let mut faults = Vec::new(alloc);
    for (path, outcome) in paths.iter().zip(done) {
        put(&mut values, &mut faults, path, outcome)?;
    }
    Ok((values, faults))
}
