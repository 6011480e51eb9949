//! What a package has, as it is kept.
ghost use Rattle.std.specs.Prelude.{◌≡◌, None, Some, IfOk, MatchOption};
ghost use Rattle.targets.specs.Resolving.{dependencies, target_with};
ghost use Rattle.packages.specs.Packages.{all_dependencies};

use analysis::{Needed, dependencies};
use lexer::FaultKind;
use loading::{LoadFaultKind, Placed};
use rule_calls::PackageTargets;
use std::alloc::{AllocError, Global};
use std::marker::Model;
use targets::Target;
use values::Kind;
use workspace::Label;

/// The targets that a package declares, in order, and what each depends on.
pub(crate) struct DeclaredTargets {
    targets: PackageTargets,
    dependencies: Vec<Needed>,
}

impl Drop for DeclaredTargets {
    fn drop(self) {
        let DeclaredTargets {
            targets: _,
            dependencies: _,
        } = self;
    }
}

impl Model for DeclaredTargets {
    ghost use Rattle.std.specs.Prelude.{◌≡◌, List};
    ghost use Rattle.targets.specs.declared.target.Target.{Target};
    ghost use Rattle.packages.specs.Packages.{all_dependencies};

    ghost Value = { List Target };

    ghost view = { λ d. d.targets.targets };

    ghost invariant = { λ d. d.dependencies.items ≡ all_dependencies d.targets.targets };
}

/// What a package has whose `BUILD` file was evaluated.
#[derive(Drop)]
pub(crate) enum Package {
    /// That file failed.
    Failed,
    /// What it declares.
    Declared(DeclaredTargets),
}

/// What a `BUILD` file comes to: what it declares, or why it fails.
pub(crate) type BuiltPackage = Result<DeclaredTargets, Placed<LoadFaultKind<FaultKind, Kind>>>;

/// What each target depends on, in the order of the targets.
fn all_dependencies(alloc: Global, targets: &PackageTargets) -> Result<Vec<Needed>, AllocError>
    ensures { IfOk result (λ v. v.items ≡ all_dependencies targets.now.targets) }
{
    let mut all = Vec::with_capacity(alloc, targets.len())?;
    for place in 0..targets.len() {
        all.push(dependencies(alloc, targets.target(place))?)?;
    }
    Ok(all)
}

impl DeclaredTargets {
    /// These targets, with their dependencies.
    ///
    /// # Errors
    ///
    /// `AllocError` where memory was refused.
    pub(crate) fn new(alloc: Global, targets: PackageTargets) -> Result<DeclaredTargets, AllocError>
        ensures { IfOk result (λ d. d ≡ targets.targets) }
    {
        let dependencies = all_dependencies(alloc, &targets)?;
        Ok(DeclaredTargets {
            targets,
            dependencies,
        })
    }

    /// The target of a label and what it depends on, if it is declared.
    pub(crate) fn find(&self, label: &Label) -> Option<(&Target, &Needed)>
        ensures { MatchOption result (target_with label.now self.now ≡ None)
            (λ r. (target_with label.now self.now ≡ Some r.0.now)
            × (r.1.now ≡ dependencies r.0.now)) }
    {
        match self.targets.find(label) {
            Some((place, target)) => Some((target, &self.dependencies[place])),
            None => None,
        }
    }
}
