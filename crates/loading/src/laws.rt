//! What the definition of modules means. These functions do nothing; their contracts hold of every
//! workspace, every reading of its texts and every evaluation.

ghost use Rattle.loading.specs.Modules.{Sources};
ghost use Rattle.loading.specs.Laws.{TellsCycles, TellsCycleLines, ComeFromLower, LoadsAreLower};
ghost use Rattle.loading.specs.Laws.{AloneComesFromLower, KeptByEach};
ghost use Rattle.loading.specs.Together.{Seen};

/// A file is found to be on a load cycle exactly where some walk along loads leads from it back to
/// itself.
pub fn load_cycles_are_walks<T, M, S, K>()
    ensures { (w : Sources T M S K) → TellsCycles w }
{}

/// A file on a load cycle has that as its fault, at the line of the first of its load statements
/// from whose module a walk along loads leads back to the file.
pub fn load_cycles_stand_where_walks_begin<T, M, S, K>()
    ensures { (w : Sources T M S K) → TellsCycleLines w }
{}

/// Each module comes from what the modules below it come to, which settles what all of them come
/// to, and every module that a file on no cycle loads is one of these: so modules are taken in the
/// order in which they load each other.
pub fn modules_come_from_their_loads<T, M, S, K>()
    ensures lower { (w : Sources T M S K) → ComeFromLower w }
    ensures only { (w : Sources T M S K) → AloneComesFromLower w }
    ensures loads { (w : Sources T M S K) → LoadsAreLower w }
{}

/// Where the evaluation of each module keeps one tree for an id, all modules of a workspace
/// together do, and each of their depsets is owned by a module.
pub fn modules_are_coherent_together<T, M, S, K, D, I>()
    ensures { (w : Sources T M S K) (s : Seen M D I) → KeptByEach w s }
{}
