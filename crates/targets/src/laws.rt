//! What the definitions of targets mean. These functions do nothing; their contracts hold of all
//! rules, calls and outcomes.
ghost use Rattle.targets.specs.Laws.{CallsDeclare, AreTheLabels, AreDistinct, KeepOrder};
ghost use Rattle.targets.specs.Laws.{TargetsHaveTheirLabels, TellsTheFirst, TellsNone, DoneIsWhole};

/// A call of a rule that declares a target declares one that is new in its package, with a legal
/// label, the rule, and a value for each of the rule's attributes.
pub fn calls_declare_new_targets()
    ensures { CallsDeclare }
{}

/// The dependencies of a target are the labels that it has for its attributes, each once, in their
/// order.
pub fn dependencies_are_labels_each_once()
    ensures labels { AreTheLabels }
    ensures once { AreDistinct }
    ensures order { KeepOrder }
{}

/// A label that names a target is the target's own.
pub fn targets_have_their_labels()
    ensures { TargetsHaveTheirLabels }
{}

/// Of the dependencies that its attributes refuse the first is told, and none where there is none.
pub fn the_first_refusal_is_told()
    ensures first { TellsTheFirst }
    ensures none { TellsNone }
{}

/// A target that is done has all that is asked of it.
pub fn done_targets_are_whole()
    ensures { DoneIsWhole }
{}
