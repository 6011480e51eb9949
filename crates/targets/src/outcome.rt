//! What becomes of a label, as workers hand it on.
ghost use Rattle.std.specs.Prelude.{◌≡◌, ◌++◌, ◌∷◌, [], IfOk, OnOk, OnErr};
ghost use Rattle.targets.specs.Steps.{is_failed};

use crate::{Sequence, SourceFile};
use actions::Action;
use plain::{Shared, Text};
use std::alloc::{AllocError, Global};
use std::marker::Model;
use values::{Frozen, Kind};
use workspace::Label;

/// Provider instances, in order.
#[derive(Drop)]
pub struct Providers {
    items: Vec<Frozen>,
}

impl Model for Providers {
    ghost use Rattle.std.specs.Prelude.{List};
    ghost use Rattle.values.specs.View.{FrozenTree};

    ghost Value = { List FrozenTree };

    ghost use Rattle.targets.specs.OutcomeCodes.{trees_code};

    ghost coded = { trees_code };

    ghost view = { λ p. p.items.items };
}

impl Providers {
    /// None yet.
    pub fn new(alloc: Global) -> Providers
        ensures { result ≡ [] }
    {
        Providers {
            items: Vec::new(alloc),
        }
    }

    /// None yet, with memory for so many.
    ///
    /// # Errors
    ///
    /// `AllocError` where memory was refused.
    pub fn with_capacity(alloc: Global, count: usize) -> Result<Providers, AllocError>
        ensures { IfOk result (λ p. p ≡ []) }
    {
        let items = Vec::with_capacity(alloc, count)?;
        Ok(Providers { items })
    }

    /// Puts an instance last. After a refusal of memory they are as they were.
    ///
    /// # Errors
    ///
    /// `AllocError` where memory was refused.
    pub fn push(&mut self, instance: Frozen) -> Result<(), AllocError>
        ensures ok { OnOk result (self.new ≡ self.old ++ instance ∷ []) }
        ensures err { OnErr result (self.new ≡ self.old) }
    {
        self.items.push(instance)?;
        Ok(())
    }

    /// All of them, in order.
    pub fn as_slice(&self) -> &[Frozen]
        ensures { result.now ≡ self.now }
    {
        self.items.as_slice()
    }
}

/// Actions, in the order in which they were registered.
#[derive(Drop)]
pub struct Actions {
    items: Vec<Action>,
}

impl Model for Actions {
    ghost use Rattle.std.specs.Prelude.{List};
    ghost use Rattle.actions.specs.declared.action.Action.{Action as Act};

    ghost Value = { List Act };

    ghost use Rattle.targets.specs.OutcomeCodes.{actions_code};

    ghost coded = { actions_code };

    ghost view = { λ a. a.items.items };
}

impl Actions {
    /// None yet.
    pub fn new(alloc: Global) -> Actions
        ensures { result ≡ [] }
    {
        Actions {
            items: Vec::new(alloc),
        }
    }

    /// Puts an action last. After a refusal of memory they are as they were.
    ///
    /// Most targets have one action, so room is taken for one at first.
    ///
    /// # Errors
    ///
    /// `AllocError` where memory was refused.
    pub fn push(&mut self, action: Action) -> Result<(), AllocError>
        ensures ok { OnOk result (self.new ≡ self.old ++ action ∷ []) }
        ensures err { OnErr result (self.new ≡ self.old) }
    {
        if self.items.is_empty() {
            self.items.reserve_exact(1)?;
        }
        self.items.push(action)?;
        Ok(())
    }

    /// All of them, in order.
    pub fn as_slice(&self) -> &[Action]
        ensures { result.now ≡ self.now }
    {
        self.items.as_slice()
    }
}

/// Why a label has no providers.
pub enum TargetFault {
    /// Some walk along dependencies leads to a cycle.
    Cycle,
    /// The label names nothing.
    NoSuchTarget,
    /// The label's package has a `BUILD` file that failed.
    PackageFailed,
    /// The dependencies that failed, in order.
    DependencyFailed(Sequence<Shared<Label>>),
    /// The attribute, and the dependency that doesn't offer what the attribute asks.
    ProvidersMissing(Text, Shared<Label>),
    /// The attribute, and the source file that it doesn't take.
    FileKind(Text, Shared<Label>),
    /// The kind, and the path and the line where it stands.
    Implementation(Kind, Text, u64),
    /// What the implementation returned isn't None or a list of instances of different providers.
    Returned,
    /// The path of the first declared file that no action makes.
    NoAction(Text),
}

/// What becomes of a label: a source file; the providers and the actions of a target; or why there
/// are none.
pub enum Outcome {
    /// The source file that the label names.
    Source(SourceFile),
    /// The providers and the actions of a target.
    Done(Providers, Actions),
    /// Why there are none.
    Failed(TargetFault),
}

impl Drop for TargetFault {
    fn drop(self) {
        match self {
            TargetFault::Cycle => {}
            TargetFault::NoSuchTarget => {}
            TargetFault::PackageFailed => {}
            TargetFault::DependencyFailed(_) => {}
            TargetFault::ProvidersMissing(_, _) => {}
            TargetFault::FileKind(_, _) => {}
            TargetFault::Implementation(_, _, _) => {}
            TargetFault::Returned => {}
            TargetFault::NoAction(_) => {}
        }
    }
}

impl Drop for Outcome {
    fn drop(self) {
        match self {
            Outcome::Source(_) => {}
            Outcome::Done(_, _) => {}
            Outcome::Failed(_) => {}
        }
    }
}

impl Outcome {
    /// Whether it is a failure.
    pub fn is_failed(&self) -> bool
        ensures { result ≡ is_failed self.now }
    {
        match self {
            Outcome::Source(_) => false,
            Outcome::Done(_, _) => false,
            Outcome::Failed(_) => true,
        }
    }
}
