//! The outcomes of targets.
ghost use Rattle.std.specs.Prelude.{◌≡◌, [], IfOk, map, zip};
ghost use Rattle.workspace.specs.Labels.{label_path, label_text};
ghost use Rattle.targets.specs.Steps.{analysed, finished, target_outcome};
ghost use Rattle.analysis.specs.Seen.{dependencies_seen};
ghost use Rattle.target_outcomes.specs.Implementing.{implement};

use crate::calling::implement;
use crate::given::with_outcomes;
use crate::returning::Implemented;
use crate::source::source_file;
use analysis::{Dependency, Needed, failed_labels, finish, first_refused};
use contexts::Work;
use implementations::Mnemonics;
use loader::LoadedFiles;
use loading::Placed;
use std::alloc::{AllocError, Global};
use std::marker::Model;
use targets::{Outcome, SourceFile, Target, TargetFault};
use values::Kind;
use workspace::Label;

/// What the analysis of every target of a workspace takes: its files, with the modules, and the
/// mnemonics of actions, made once.
pub struct Analysis<'a> {
    files: &'a LoadedFiles,
    mnemonics: Mnemonics,
}

impl<'a> Drop for Analysis<'a> {
    fn drop(self) {
        let Analysis {
            files: _,
            mnemonics: _,
        } = self;
    }
}

impl<'a> Model for Analysis<'a> {
    ghost use Rattle.std.specs.Prelude.{◌≡◌};
    ghost use Rattle.loader.specs.Loaded.{LoadedView};

    ghost Value = { LoadedView };

    ghost view = { λ a. a.files.now };
}

/// The outcome of a target whose implementation has a fault.
fn implementation_fault(placed: Placed<Kind>) -> Outcome
    ensures { result ≡ Outcome.Failed
        (TargetFault.Implementation placed.kind placed.path placed.line) }
{
    let Placed { kind, path, line } = placed;
    Outcome::Failed(TargetFault::Implementation(kind, path, line))
}

impl<'a> Analysis<'a> {
    /// The analysis of the targets of a workspace with these files.
    ///
    /// # Errors
    ///
    /// `AllocError` where memory was refused.
    pub fn new(alloc: Global, files: &'a LoadedFiles) -> Result<Analysis<'a>, AllocError>
        ensures { IfOk result (λ a. a ≡ files.now) }
    {
        let mnemonics = Mnemonics::new(alloc)?;
        Ok(Analysis { files, mnemonics })
    }

    /// The outcome of a label that names a source file: the File at its path, which the label owns
    /// and whose text it shares.
    ///
    /// # Errors
    ///
    /// `AllocError` where memory was refused.
    pub fn source_outcome(&self, alloc: Global, label: &Label) -> Result<Outcome, AllocError>
        ensures { IfOk result (λ o. o ≡ Outcome.Source (record {
          path = label_path label.now;
          owner = label_text label.now;
        })) }
    {
        let file = source_file(alloc, label)?;
        let info = self.files.default_info();
        Ok(Outcome::Source(SourceFile::new(alloc, file, info)?))
    }

    /// The outcome of a label that names a target, from the outcomes of the labels that the target
    /// depends on, which stand in the order of these. It is the first of these that applies:
    /// `dependency failed`, with all that failed; the first dependency that an attribute refuses;
    /// and what the implementation of the target's rule comes to.
    ///
    /// # Errors
    ///
    /// `AllocError` where memory was refused.
    pub fn target_outcome(
        &self,
        alloc: Global,
        label: &Label,
        target: &Target,
        dependencies: &Needed,
        outcomes: &[&Outcome],
    ) -> Result<Outcome, AllocError>
        ensures { IfOk result (λ o. o
            ≡ target_outcome (implement self.now.files self.now.limit) label.now target.now
            (zip dependencies.now (map (λ r. r.now) outcomes.now))) }
    {
        let dependencies = with_outcomes(alloc, dependencies, outcomes)?;
        self.analysed(alloc, label, target, dependencies.as_slice())
    }

    /// The outcome of a target with these dependencies.
    fn analysed(
        &self,
        alloc: Global,
        label: &Label,
        target: &Target,
        dependencies: &[Dependency<'_>],
    ) -> Result<Outcome, AllocError>
        ensures { IfOk result (λ o. o
            ≡ target_outcome (implement self.now.files self.now.limit) label.now target.now
            (dependencies_seen dependencies.now)) }
    {
        let failed = failed_labels(alloc, dependencies)?;
        if failed.len() == 0 {
            return self.unless_refused(alloc, label, target, dependencies);
        }
        Ok(Outcome::Failed(TargetFault::DependencyFailed(failed)))
    }

    /// The outcome of a target of which no dependency failed.
    fn unless_refused(
        &self,
        alloc: Global,
        label: &Label,
        target: &Target,
        dependencies: &[Dependency<'_>],
    ) -> Result<Outcome, AllocError>
        ensures { IfOk result (λ o. o
            ≡ analysed (implement self.now.files self.now.limit) label.now target.now
            (dependencies_seen dependencies.now) []) }
    {
        match first_refused(alloc, target, dependencies)? {
            Some(fault) => Ok(Outcome::Failed(fault)),
            None => self.finished(alloc, label, target, dependencies),
        }
    }

    /// The outcome of a target whose dependencies are fit, by the call of its implementation.
    fn finished(
        &self,
        alloc: Global,
        label: &Label,
        target: &Target,
        dependencies: &[Dependency<'_>],
    ) -> Result<Outcome, AllocError>
        ensures { IfOk result (λ o. o ≡ finished label.now (implement self.now.files
            self.now.limit label.now target.now (dependencies_seen dependencies.now))) }
    {
        match implement(
            alloc,
            self.files,
            &self.mnemonics,
            label,
            target,
            dependencies,
        )? {
            Ok(implemented) => {
                let Implemented { result, work } = implemented;
                let Work { files, actions } = work;
                let info = self.files.default_info();
                finish(alloc, label, info, &result, files.as_slice(), actions)
            }
            Err(placed) => Ok(implementation_fault(placed)),
        }
    }
}
