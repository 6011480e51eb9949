//! The files that are linked.
ghost use Rattle.std.specs.Prelude.{◌≡◌, IfOk, option_and_then, option_copied};
ghost use Rattle.loading.specs.Loads.{path_at};
ghost use Rattle.evaluation.specs.Worlds.{load_path, module_numbered};
ghost use Rattle.loader.specs.MadeBefore.{attribute_at, rule_of};

use crate::known::KnownModules;
use evaluation::Module;
use language::Link;
use plain::{Shared, Text};
use sources::load_path;
use std::alloc::{AllocError, Global};
use targets::{Attribute, Rule};
use values::{Item, MadeId, Value};

/// The paths of all files of a workspace, in ascending order, and the modules that are known. A
/// file's number is its place among the paths.
#[derive(Drop)]
pub struct Files<'a, K> {
    /// Where memory comes from.
    pub alloc: Global,
    /// The paths, by the numbers of their files.
    pub paths: &'a [Text],
    /// For each file, where its module is looked for first among the modules: how many of these
    /// stand before it.
    pub module_numbers: &'a [usize],
    /// The modules that are known.
    pub known: &'a K,
}

/// The path of the file of a number; empty where there is none.
fn path_at(paths: &[Text], file: usize) -> &str
    ensures { result.now ≡ path_at paths.now file }
{
    match paths.get(file) {
        Some(path) => path.as_str(),
        None => "",
    }
}

impl<'a, K: KnownModules> Files<'a, K> {
    /// The module of a number, if it is known.
    pub fn numbered(&self, file: usize) -> Option<&'a Module>
        ensures { option_copied result
            ≡ module_numbered self.now.paths.now (K.known self.now.known.now) file }
    {
        match self.paths.get(file) {
            Some(path) => {
                let number = self.module_numbers.get(file).copied().unwrap_or(file);
                self.known.module_near(number, path)
            }
            None => None,
        }
    }

    /// The module that a load of a file names, by the text of the label, if it names one that is
    /// known.
    fn named(&self, file: usize, label: &Text) -> Result<Option<&'a Module>, AllocError>
        ensures { IfOk result (λ m. option_copied m
            ≡ option_and_then (K.known self.now.known.now)
            (load_path (path_at self.now.paths.now file) label.now)) }
    {
        match load_path(self.alloc, path_at(self.paths, file), label.as_str())? {
            Some(path) => Ok(self.known.module(&path)),
            None => Ok(None),
        }
    }

    /// A rule that a module declared, by its numbers.
    pub fn rule(&self, id: MadeId) -> Option<&'a Shared<Rule>>
        ensures { option_copied result
            ≡ rule_of self.now.paths.now (K.known self.now.known.now) id }
    {
        match self.numbered(id.module as usize) {
            Some(module) => module.made().rules.as_slice().get(id.number as usize),
            None => None,
        }
    }
}

/// An attribute that the module at a path declared, by its number.
pub fn attribute_at<'a, K: KnownModules>(
    known: &'a K,
    path: &Text,
    number: usize,
) -> Option<&'a Shared<Attribute>>
    ensures { option_copied result ≡ attribute_at (K.known known.now) path.now number }
{
    match known.module(path) {
        Some(module) => module.made().attributes.as_slice().get(number),
        None => None,
    }
}

impl<'a, K: KnownModules> Link<'a> for Files<'a, K> {
    ghost use Rattle.evaluation.specs.Worlds.{world};

    ghost linked = { λ f. world f.paths.now (K.known f.known.now) };

    fn name(&self, file: usize, number: usize) -> Option<Item<'a>> {
        match self.numbered(file) {
            Some(module) => module.name(number),
            None => None,
        }
    }

    fn defaults(&self, file: usize, number: usize) -> &'a [Value] {
        match self.numbered(file) {
            Some(module) => module.defaults(number),
            None => &[],
        }
    }

    fn asked(
        &self,
        file: usize,
        label: &Text,
        name: &Text,
    ) -> Result<Option<Item<'a>>, AllocError> {
        match self.named(file, label)? {
            Some(module) => Ok(module.global(name)),
            None => Ok(None),
        }
    }
}
