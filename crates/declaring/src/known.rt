//! What other modules declared.
ghost use Rattle.std.specs.Prelude.{◌≡◌, ℕ, List, Option, option_copied};
ghost use Rattle.targets.specs.declared.attributes.Attribute.{Attribute as Declared};

use plain::{Shared, Text};
use targets::Attribute;

/// The declarations of attributes of the modules that were evaluated before. A rule may have them.
pub trait Attributes {
    ghost declared: { Self → List ℕ → ℕ → Option Declared };

    /// The declaration of a number of the module at a path.
    fn attribute(&self, path: &Text, number: u64) -> Option<&Shared<Attribute>>
        ensures { option_copied result ≡ declared self.now path.now number };
}
