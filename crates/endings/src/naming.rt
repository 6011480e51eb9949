//! The names that globals give to what their module made.
ghost use Rattle.std.specs.Prelude.{◌≡◌, IfOk, OnOk, is_some, None, Some, replicate};
ghost use Rattle.std.specs.List.{list_all};
ghost use Rattle.evaluation.specs.Naming.{unnamed, given_once, leaf_given, global_given};
ghost use Rattle.evaluation.specs.Naming.{names_given, all_named};

use evaluation::TopNames;
use plain::Text;
use std::alloc::{AllocError, Global};
use std::marker::Model;
use targets::Declarations;
use values::{Frozen, Held, Leaf};

/// The names that a module gives to the providers and the rules that it made, by their numbers.
#[derive(Drop)]
pub(crate) struct Naming {
    pub(crate) path: Text,
    pub(crate) file: u32,
    pub(crate) providers: Vec<Option<Text>>,
    pub(crate) rules: Vec<Option<Text>>,
}

impl Model for Naming {
    ghost use Rattle.evaluation.specs.Naming.{Naming as Given};

    ghost Value = { Given };

    ghost view = { λ n. record {
      path = n.path;
      file = n.file;
      providers = n.providers.items;
      rules = n.rules.items;
    } };
}

/// So many without a name.
fn no_names(alloc: Global, count: usize) -> Result<Vec<Option<Text>>, AllocError>
    ensures { IfOk result (λ v. v.items ≡ replicate count None) }
{
    let mut names = Vec::with_capacity(alloc, count)?;
    for _ in 0..count {
        names.push(None)?;
    }
    Ok(names)
}

/// Gives a name to what has this number, if it is there and has none.
fn give(names: &mut Vec<Option<Text>>, number: usize, name: &Text) -> Result<(), AllocError>
    ensures { OnOk result (names.new.items ≡ given_once number name.now names.old.items) }
{
    if let Some(None) = names.get(number) {
        names[number] = Some(name.share()?);
    }
    Ok(())
}

/// Whether all have a name.
fn have_names(names: &[Option<Text>]) -> bool
    ensures { result ≡ list_all is_some names.now }
{
    names.iter().all(Option::is_some)
}

impl Naming {
    /// Nothing that the module made has a name yet.
    pub(crate) fn of(
        alloc: Global,
        path: &Text,
        file: u32,
        made: &Declarations,
    ) -> Result<Naming, AllocError>
        ensures { IfOk result (λ n. n ≡ unnamed path.now file made.now) }
    {
        Ok(Naming {
            path: path.share()?,
            file,
            providers: no_names(alloc, made.providers as usize)?,
            rules: no_names(alloc, made.rules.len())?,
        })
    }

    /// A global gives its name to the provider or the rule that is its value.
    fn give_leaf(&mut self, name: &Text, leaf: &Leaf) -> Result<(), AllocError>
        ensures { OnOk result (self.new ≡ leaf_given self.old name.now leaf.now) }
    {
        match leaf {
            Leaf::Provider(provider) => match provider.get().id {
                Some(id) if id.module == self.file => {
                    give(&mut self.providers, id.number as usize, name)
                }
                _ => Ok(()),
            },
            Leaf::Rule(rule) if rule.get().id.module == self.file => {
                give(&mut self.rules, rule.get().id.number as usize, name)
            }
            _ => Ok(()),
        }
    }

    /// The same, of a global that may be bound, and may have any value.
    fn give_global(&mut self, name: &Text, global: &Option<Frozen>) -> Result<(), AllocError>
        ensures { OnOk result (self.new ≡ global_given self.old name.now global.now) }
    {
        match global {
            Some(tree) => match tree.held() {
                Held::Leaf(leaf) => self.give_leaf(name, leaf),
                _ => Ok(()),
            },
            None => Ok(()),
        }
    }

    /// All globals give their names, in the order in which they were bound.
    pub(crate) fn give_all(
        &mut self,
        names: &TopNames,
        globals: &[Option<Frozen>],
    ) -> Result<(), AllocError>
        ensures { OnOk result (self.new ≡ names_given self.old names.now globals.now) }
    {
        for (place, global) in globals.iter().enumerate() {
            let Some(name) = names.get(place) else {
                return Ok(());
            };
            self.give_global(name, global)?;
        }
        Ok(())
    }

    /// Whether everything that the module made has a name.
    pub(crate) fn all_named(&self) -> bool
        ensures { result ≡ all_named self.now }
    {
        have_names(self.providers.as_slice()) && have_names(self.rules.as_slice())
    }
}
