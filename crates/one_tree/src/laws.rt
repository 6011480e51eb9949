//! What keeps one tree for an id. These functions do nothing; their contracts hold of all heaps and
//! values.
ghost use Rattle.std.specs.Prelude.{List, ℕ};
ghost use Rattle.one_tree.specs.Evaluations.{HoldsAtFirst, HoldsOfNew, HoldsOfTheSame};
ghost use Rattle.one_tree.specs.Evaluations.{OutcomeIsMade};
ghost use Rattle.one_tree.specs.Found.{Set};
ghost use Rattle.one_tree.specs.Laws.{BeginsFresh, NewDepsetKeeps, PartsKeep, ChangesBringNone};
ghost use Rattle.one_tree.specs.Laws.{DepsetsAreCoherent, FreezingBringsNone, TextsArePlain};

/// An evaluation begins with no serial of its owner, and each new depset takes the next: an id
/// keeps one tree.
pub fn new_depsets_keep_one_tree()
    ensures begins { (owner : List ℕ) (ds : List Set) → BeginsFresh owner ds }
    ensures new { NewDepsetKeeps }
{}

/// What is taken from what has one tree for an id has it too, and neither changes of a heap nor
/// freezing bring a depset of their own.
pub fn changes_keep_one_tree()
    ensures parts { PartsKeep }
    ensures changes { ChangesBringNone }
    ensures frozen { FreezingBringsNone }
{}

/// Where an id has one tree, each listing is that of the plain walk, and so is each text.
pub fn one_tree_lists_plainly()
    ensures depsets { DepsetsAreCoherent }
    ensures texts { TextsArePlain }
{}

/// From what is fresh for its owner an evaluation holds one tree for an id at each point, and what
/// it leaves is what the coherence of all outcomes asks of each.
pub fn evaluations_hold_one_tree()
    ensures first { HoldsAtFirst }
    ensures new { HoldsOfNew }
    ensures same { HoldsOfTheSame }
    ensures outcome { OutcomeIsMade }
{}
