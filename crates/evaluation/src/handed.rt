//! What a module comes to.
ghost use Rattle.std.specs.Prelude.{◌≡◌, bytes_eq, slice_get};
ghost use Rattle.std.specs.List.{list_any};
ghost use Rattle.std.specs.Option.{option_flatten};
ghost use Rattle.values.specs.Seeing.{option_value};
ghost use Rattle.operations.specs.Names.{listed};
ghost use Rattle.evaluation.specs.Evaluated.{frozen_value, global_names, global_named};
ghost use Rattle.evaluation.specs.Evaluated.{name_value};

use crate::kept::{LoadedValues, ModuleDefaults};
use crate::names::TopNames;
use plain::{Shared, Text};
use std::marker::Model;
use targets::Declarations;
use values::{Frozen, Item, Value};

/// The frozen values of the globals of a module, by the numbers of their names.
#[derive(Drop)]
pub struct Globals {
    values: Vec<Option<Frozen>>,
}

impl Model for Globals {
    ghost use Rattle.std.specs.Prelude.{List, Option};
    ghost use Rattle.values.specs.View.{FrozenTree};

    ghost Value = { List (Option FrozenTree) };

    ghost use Rattle.evaluation.specs.GlobalCodes.{globals_code};

    ghost coded = { globals_code };

    ghost view = { λ g. g.values.items };
}

impl Globals {
    /// These values.
    pub fn of(values: Vec<Option<Frozen>>) -> Globals
        ensures { result ≡ values.items }
    {
        Globals { values }
    }

    /// All of them, by number.
    pub fn as_slice(&self) -> &[Option<Frozen>]
        ensures { result.now ≡ self.now }
    {
        self.values.as_slice()
    }
}

/// What a module leaves to the files that load it, and to the functions of its own that they call.
#[derive(Drop)]
pub struct Module {
    /// The names of its top level, by number: first those that its loads bind, then its globals.
    pub names: Shared<TopNames>,
    /// The frozen values of its globals.
    pub globals: Globals,
    /// The values of the names that its loads bind, by number. Its functions read them later.
    pub loaded: LoadedValues,
    /// The frozen defaults of its functions, by the function's number and by parameter.
    pub defaults: ModuleDefaults,
    /// The providers, rules and attributes that it made.
    pub made: Declarations,
}

/// The frozen value at a place, if there is one.
fn frozen_at(trees: &[Option<Frozen>], place: usize) -> Option<Item<'_>>
    ensures { option_value result ≡ frozen_value trees.now place }
{
    match trees.get(place) {
        Some(Some(tree)) => Some(tree.item()),
        _ => None,
    }
}

/// The value at a place, if there is one.
fn value_at(values: &[Option<Value>], place: usize) -> Option<Item<'_>>
    ensures { option_value result ≡ option_flatten (slice_get values.now place) }
{
    match values.get(place) {
        Some(Some(value)) => Some(value.item()),
        _ => None,
    }
}

impl Module {
    /// Whether it binds a name that others may load.
    pub fn binds(&self, name: &Text) -> bool
        ensures { result ≡ list_any (bytes_eq name.now) (global_names self.now) }
    {
        self.global(name).is_some()
    }

    /// What a load gets that asks it for a name.
    pub fn global(&self, name: &Text) -> Option<Item<'_>>
        ensures { option_value result ≡ global_named name.now self.now }
    {
        match self.names.get().number(name) {
            Some(number) => frozen_at(self.globals.as_slice(), number),
            None => None,
        }
    }

    /// The value of a name of its top level, by number, as its functions read it.
    pub fn name(&self, number: usize) -> Option<Item<'_>>
        ensures { option_value result ≡ name_value number self.now }
    {
        match frozen_at(self.globals.as_slice(), number) {
            Some(item) => Some(item),
            None => value_at(self.loaded.as_slice(), number),
        }
    }

    /// The defaults of a function, by number.
    pub fn defaults(&self, function: usize) -> &[Value]
        ensures { result.now ≡ listed (slice_get self.now.defaults function) }
    {
        match self.defaults.get(function) {
            Some(items) => items.as_slice(),
            None => &[],
        }
    }

    /// What it made, with the names that it gave.
    pub fn made(&self) -> &Declarations
        ensures { result.now ≡ self.now.made }
    {
        &self.made
    }
}
