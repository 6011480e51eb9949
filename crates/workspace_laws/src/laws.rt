//! What holds of every workspace. These functions do nothing; their contracts hold of all files.
ghost use Rattle.std.specs.Prelude.{List, ℕ};
ghost use Rattle.workspace.specs.Workspaces.{Pair};
ghost use Rattle.workspace_laws.specs.ModuleLaws.{ModulesAreCoherent, InAnyIsCoherent, NoLabelOwns};
ghost use Rattle.workspace_laws.specs.ModuleLaws.{AllAreThere, NoneIsGiven};
ghost use Rattle.workspace_laws.specs.TargetLaws.{CallsKeepCoherence};
ghost use Rattle.workspace_laws.specs.PlainLaws.{ModulesAreTheSame, FaultsAreTheSame};
ghost use Rattle.workspace_laws.specs.PlainLaws.{PackagesAreTheSame, CallsAreTheSame};
ghost use Rattle.workspace_laws.specs.PlainLaws.{DependenciesAreTheSame, OutcomesAreTheSame};
ghost use Rattle.workspace_laws.specs.LabelLaws.{DependenciesAreLegal};
ghost use Rattle.workspace_laws.specs.ReportLaws.{TextsArePlain, WorkspacesAreToldPlainly};

/// All modules of a workspace are coherent together: any two depsets that stand in them with one id
/// are the same, and each is owned by a module, so that no label owns one. And what a module gives
/// to an evaluation stands in the module.
pub fn modules_are_coherent()
    ensures together { (files : List Pair) (limit : ℕ) → ModulesAreCoherent files limit }
    ensures coherent { (files : List Pair) (limit : ℕ) → InAnyIsCoherent files limit }
    ensures apart { (files : List Pair) (limit : ℕ) → NoLabelOwns files limit }
    ensures all { (files : List Pair) (limit : ℕ) → AllAreThere files limit }
    ensures given { (files : List Pair) (limit : ℕ) → NoneIsGiven files limit }
{}

/// The call of an implementation keeps coherence, where what it is handed is coherent and fresh for
/// its label.
pub fn implementations_keep_coherence()
    ensures { CallsKeepCoherence }
{}

/// By plain listings the files of a workspace come to the same modules, the same packages and the
/// same faults; the call of an implementation comes to the same, wherever what it is handed is
/// coherent and fresh for its label; and its labels have the same dependencies and outcomes.
pub fn workspaces_are_plain()
    ensures modules { (files : List Pair) (limit : ℕ) → ModulesAreTheSame files limit }
    ensures faults { (files : List Pair) (limit : ℕ) → FaultsAreTheSame files limit }
    ensures packages { (files : List Pair) (limit : ℕ) → PackagesAreTheSame files limit }
    ensures calls { (files : List Pair) (limit : ℕ) → CallsAreTheSame files limit }
    ensures dependencies { (files : List Pair) (limit : ℕ) → DependenciesAreTheSame files limit }
    ensures outcomes { (files : List Pair) (limit : ℕ) → OutcomesAreTheSame files limit }
{}

/// The text of a report is that of the plain listings, where an id has one tree in all that is
/// told; and so it is of labels of a workspace whose implementations keep coherence.
pub fn reports_are_plain()
    ensures texts { TextsArePlain }
    ensures workspaces { WorkspacesAreToldPlainly }
{}

/// Each label depends on legal labels alone, defaults of attributes included.
pub fn dependencies_are_legal()
    ensures { DependenciesAreLegal }
{}
