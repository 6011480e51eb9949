//! What the modules that are known declared.
ghost use Rattle.loader.specs.MadeBefore.{attribute_at, rule_of};

use crate::{Files, KnownModules, attribute_at};
use declaring::Attributes;
use file_places::Rules;
use plain::{Shared, Text};
use targets::{Attribute, Rule};
use values::MadeId;

/// The attributes and the rules that the modules of linked files declared.
#[derive(Drop)]
pub struct KnownMade<'a, 'b, K> {
    /// The linked files, with the modules that are known.
    pub files: &'a Files<'b, K>,
}

impl<'a, 'b, K: KnownModules> Attributes for KnownMade<'a, 'b, K> {
    ghost use Rattle.loader.specs.MadeBefore.{attribute_at};

    ghost declared = { λ m. attribute_at (K.known m.files.now.known.now) };

    fn attribute(&self, path: &Text, number: u64) -> Option<&Shared<Attribute>> {
        attribute_at(self.files.known, path, number as usize)
    }
}

impl<'a, 'b, K: KnownModules> Rules for KnownMade<'a, 'b, K> {
    ghost use Rattle.loader.specs.MadeBefore.{rule_of};

    ghost rules = { λ m. rule_of m.files.now.paths.now (K.known m.files.now.known.now) };

    fn rule(&self, id: MadeId) -> Option<&Shared<Rule>> {
        self.files.rule(id)
    }
}
