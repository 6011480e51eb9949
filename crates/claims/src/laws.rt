//! What the definitions of conflicts and of shared actions come to, as laws of every list of
//! actions.
ghost use Rattle.std.specs.Prelude.{◌≡◌, List, ℕ};
ghost use Rattle.depsets.specs.Own.{Own};
ghost use Rattle.depsets.specs.Rose.{Rose};
ghost use Rattle.depsets.specs.declared.element.Element.{Element as Listed};
ghost use Rattle.claims.specs.Clashes.{AreConflicts, owners};
ghost use Rattle.claims.specs.Conflicts.{conflicts_of};
ghost use Rattle.claims.specs.Labels.{AreLabels};
ghost use Rattle.claims.specs.Owned.{Owned as Registered};
ghost use Rattle.claims.specs.Sharing.{AreShared};
ghost use Rattle.claims.specs.declared.clashes.Conflict.{Conflict as Clash};
ghost use Rattle.claims.specs.declared.sets.Shared.{Shared as Set};

/// The conflicts of any actions, by any listing, are just the paths that clash.
pub fn conflicts_are_the_clashes()
    ensures { (listing : Rose Own → List Listed) (os : List Registered) →
        AreConflicts listing os (conflicts_of listing os) }
{}

/// At most one list of conflicts meets the law that those of [`tell`](crate::tell) keep, by any
/// listing.
pub fn actions_have_one_list_of_conflicts()
    ensures { (listing : Rose Own → List Listed) (os : List Registered) (cs ds : List Clash) →
        AreConflicts listing os cs → AreConflicts listing os ds → cs ≡ ds }
{}

/// At most one list of sets meets the law that [`shared`](crate::shared) keeps, by any listing.
pub fn actions_have_one_list_of_sets()
    ensures { (listing : Rose Own → List Listed) (os : List Registered) (ss ts : List Set) →
        AreShared listing os ss → AreShared listing os ts → ss ≡ ts }
{}

/// The labels of a path, also of one that is no conflict, are said without sorting: in the order of
/// their bytes, each as often as its actions declare the path.
pub fn owners_of_a_path_are_its_labels()
    ensures { (os : List Registered) (p : List ℕ) → AreLabels os p (owners p os) }
{}
