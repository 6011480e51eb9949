//! What is found among modules that were loaded. These functions do nothing; their contracts hold
//! of every workspace and every evaluation.
ghost use Rattle.loading.specs.Modules.{Sources};
ghost use Rattle.modules.specs.Modules.{AreFound};

/// The module that is found at a path is the one that the definition of modules gives to that path.
pub fn modules_are_found_by_path<T, M, S, K>()
    ensures { (w : Sources T M S K) → AreFound w }
{}
