//! Modules that were evaluated before, by path.
ghost use Rattle.std.specs.Prelude.{◌≡◌, option_copied};
ghost use Rattle.evaluation.specs.Evaluated.{Known as ByPath};

use evaluation::Module;
use lexer::FaultKind;
use modules::{Known, Modules};
use plain::Text;
use values::Kind;

/// The modules that are known, by path.
pub trait KnownModules {
    ghost known: { Self → ByPath };

    /// The module at a path, if it is known.
    fn module(&self, path: &Text) -> Option<&Module>
        ensures { option_copied result ≡ known self.now path.now };

    /// The module at a path, if it is known. It is looked for first at this number among all
    /// modules, where it is likely to be.
    fn module_near(&self, number: usize, path: &Text) -> Option<&Module>
        ensures { option_copied result ≡ known self.now path.now };
}

/// The modules before one that is evaluated while all are loaded.
#[derive(Drop)]
pub struct Before<'a, 'k> {
    /// The modules that have been evaluated.
    pub modules: &'a Known<'k, Module, FaultKind, Kind>,
}

impl<'a, 'k> KnownModules for Before<'a, 'k> {
    ghost use Rattle.modules.specs.Tables.{known_at};

    ghost known = { λ b. known_at b.modules.now };

    fn module(&self, path: &Text) -> Option<&Module> {
        self.modules.get(path)
    }

    fn module_near(&self, number: usize, path: &Text) -> Option<&Module> {
        self.modules.get_near(number, path)
    }
}

/// All modules, once they are loaded.
#[derive(Drop)]
pub struct Loaded<'a> {
    /// The modules of the whole workspace.
    pub modules: &'a Modules<Module, FaultKind, Kind>,
}

impl<'a> KnownModules for Loaded<'a> {
    ghost use Rattle.modules.specs.Modules.{module_in};

    ghost known = { λ l. module_in l.modules.now };

    fn module(&self, path: &Text) -> Option<&Module> {
        self.modules.module(path)
    }

    fn module_near(&self, number: usize, path: &Text) -> Option<&Module> {
        self.modules.module_near(number, path)
    }
}
