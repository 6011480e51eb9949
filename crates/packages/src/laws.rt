//! What the definitions of packages mean. The function does nothing; its contract holds of every
//! workspace.
ghost use Rattle.std.specs.Prelude.{ℕ, List};
ghost use Rattle.workspace.specs.Workspaces.{Pair};
ghost use Rattle.packages.specs.Packages.{AreListed};

/// Every package that declares targets is among the packages of the workspace.
pub fn declaring_packages_are_listed()
    ensures { (files : List Pair) (limit : ℕ) → AreListed files limit }
{}
