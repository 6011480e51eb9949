//! What becomes of one label.
ghost use Rattle.std.specs.Prelude.{◌≡◌, IfOk, map};
ghost use Rattle.outcomes.specs.Workspaces.{step_of};
ghost use Rattle.workspace_laws.specs.Workspaces.{evaluated};

use packages::{Named, Targets};
use std::alloc::{AllocError, Global};
use std::marker::Model;
use target_outcomes::Analysis;
use targets::{Outcome, TargetFault};
use workspace::Label;

/// The analysis of the labels of a workspace, one at a time. It reads the targets alone, so workers
/// share it.
pub struct LabelAnalysis<'a> {
    targets: &'a Targets,
    analysis: Analysis<'a>,
}

impl<'a> Drop for LabelAnalysis<'a> {
    fn drop(self) {
        let LabelAnalysis {
            targets: _,
            analysis: _,
        } = self;
    }
}

impl<'a> Model for LabelAnalysis<'a> {
    ghost use Rattle.std.specs.Prelude.{◌≡◌};
    ghost use Rattle.loader.specs.Loaded.{LoadedView};

    ghost Value = { LoadedView };

    ghost view = { λ a. a.targets.now };

    ghost invariant = { λ a. a.analysis ≡ a.targets.now };
}

impl<'a> LabelAnalysis<'a> {
    /// The analysis over these targets.
    ///
    /// # Errors
    ///
    /// `AllocError` where memory was refused.
    pub fn new(alloc: Global, targets: &'a Targets) -> Result<LabelAnalysis<'a>, AllocError>
        ensures { IfOk result (λ a. a ≡ targets.now) }
    {
        let analysis = Analysis::new(alloc, targets.files())?;
        Ok(LabelAnalysis { targets, analysis })
    }

    /// The outcome of a label, from the outcomes of its dependencies in their order.
    ///
    /// # Errors
    ///
    /// `AllocError` where memory was refused.
    pub fn analyse_one(
        &self,
        alloc: Global,
        label: &Label,
        outcomes: &[&Outcome],
    ) -> Result<Outcome, AllocError>
        ensures { let w = evaluated self.now.files self.now.limit in
            IfOk result (λ o. o ≡ step_of w label.now (map (λ r. r.now) outcomes.now)) }
    {
        match self.targets.named(label)? {
            Named::Target {
                target,
                dependencies,
            } => self
                .analysis
                .target_outcome(alloc, label, target, dependencies, outcomes),
            Named::SourceFile => self.analysis.source_outcome(alloc, label),
            Named::FailedPackage => Ok(Outcome::Failed(TargetFault::PackageFailed)),
            Named::Nothing => Ok(Outcome::Failed(TargetFault::NoSuchTarget)),
        }
    }
}
