//! What the numbers and the names of what a module made have to do with each other. This function
//! does nothing; its contract holds of all modules.
ghost use Rattle.std.specs.Prelude.{◌≡◌, ℕ, List, Option, Ok, true};
ghost use Rattle.program_tree.specs.Names.{distinct};
ghost use Rattle.values.specs.View.{FrozenTree};
ghost use Rattle.operations.specs.declared.state.State.{State};
ghost use Rattle.loading.specs.Loads.{Path, Name};
ghost use Rattle.evaluation.specs.declared.handed.Module.{Module};
ghost use Rattle.targets.specs.declared.declarations.Declarations.{Declarations};
ghost use Rattle.evaluation.specs.Runs.{naming_of, module_ended};
ghost use Rattle.endings.specs.Called.{ProvidersAreCalled, RulesAreCalled, EverythingIsNamed};
ghost use Rattle.endings.specs.Called.{NamesAreOwn, MadeIsCalled};

/// Where everything that a module made has a name, the name of each provider and of each rule is
/// that of the first global that is it; and everything has a name where each is the value of a
/// global. Where the names of the top level are distinct, equal names mean equal numbers, and no
/// provider has the name of a rule. In a module that ended, each provider and each rule that it
/// made is the value of the global that it is called by.
pub fn numbers_and_names_agree()
    ensures providers { (path : Path) (n : ℕ) (names : List Name)
        (globals : List (Option FrozenTree)) (made : Declarations)
        → ProvidersAreCalled path n names globals made }
    ensures rules { (path : Path) (n : ℕ) (names : List Name)
        (globals : List (Option FrozenTree)) (made : Declarations)
        → RulesAreCalled path n names globals made }
    ensures everything { (path : Path) (n : ℕ) (names : List Name)
        (globals : List (Option FrozenTree)) (made : Declarations)
        → EverythingIsNamed path n names globals made }
    ensures once { (path : Path) (n : ℕ) (names : List Name)
        (globals : List (Option FrozenTree)) (made : Declarations) → distinct names ≡ true
        → NamesAreOwn (naming_of path n names globals made) }
    ensures ended { (path : Path) (n : ℕ) (names : List Name) (s : State) (made : Declarations)
        (m : Module) → module_ended path n names s made ≡ Ok m → MadeIsCalled path n m }
{}
