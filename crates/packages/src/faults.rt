//! The faults of files, in the order of their paths.
ghost use Rattle.std.specs.Prelude.{◌≡◌, ◌++◌, Some, OnOk, IfOk};
ghost use Rattle.modules.specs.Modules.{fault_in};
ghost use Rattle.packages.specs.Kept.{ModuleTold, kept_with};

use crate::kept::{BuiltPackage, Package};
use crate::shares::share_fault;
use evaluation::Module;
use lexer::FaultKind;
use modules::{FileFault, Modules};
use plain::Text;
use std::alloc::AllocError;
use values::Kind;

/// Puts the fault of the module at a path behind the others, if it has one. It is the first of
/// those that are left, `rest`: the rest after it are given back.
pub(crate) fn put_module_fault<'a>(
    modules: &Modules<Module, FaultKind, Kind>,
    path: &Text,
    rest: &'a [FileFault<FaultKind, Kind>],
    faults: &mut Vec<FileFault<FaultKind, Kind>>,
) -> Result<&'a [FileFault<FaultKind, Kind>], AllocError>
    ensures { IfOk result (λ left. ModuleTold modules.now path.now rest.now left.now
        faults.old.items faults.new.items) }
{
    if modules.module(path).is_some() {
        return Ok(rest);
    }
    match rest.split_first() {
        Some((fault, left)) => {
            faults.push(share_fault(fault)?)?;
            Ok(left)
        }
        None => Ok(rest),
    }
}

/// What a package has whose `BUILD` file, at a path, came to this. Its fault, if it has one, is put
/// behind the others.
pub(crate) fn package_with(
    path: &Text,
    built: BuiltPackage,
    faults: &mut Vec<FileFault<FaultKind, Kind>>,
) -> Result<Package, AllocError>
    ensures package { IfOk result (λ p. p ≡ kept_with built) }
    ensures faults { OnOk result (faults.new.items
        ≡ faults.old.items ++ fault_in path.now (Some built)) }
{
    match built {
        Ok(targets) => Ok(Package::Declared(targets)),
        Err(fault) => {
            faults.push(FileFault {
                path: path.share()?,
                fault,
            })?;
            Ok(Package::Failed)
        }
    }
}
