//! The state of an evaluation: all that its operations read and change.
ghost use Rattle.std.specs.Prelude.{◌≡◌, ◌++◌, ◌∷◌, [], ◌<◌, OnOk, OnErr, length, slice_set};
ghost use Rattle.std.specs.Prelude.{option_copied, slice_get};

use heap::Heap;
use operands::Bindings;
use plain::Text;
use std::alloc::{AllocError, Global};
use std::marker::Model;
use std::mem::replace;
use values::{Fields, Items, Ticks};

/// What an evaluation holds.
///
/// A name of the top level has a slot by its number, which says in which order the names are bound.
/// A name that a load binds is no global of the file, and has its value elsewhere, under the same
/// number: it lies in the module that was loaded.
#[derive(Drop)]
pub struct State<'a> {
    /// The cells that names share.
    pub heap: Heap<'a>,
    /// The ticks that were used, of their limit.
    pub ticks: Ticks,
    /// The path of the file, or the label of the target, that is evaluated.
    pub owner: Text,
    /// How many depsets the owner has made.
    pub depsets: u64,
    /// The number of the file among those that are linked.
    pub file: u32,
    /// The globals of the file, as far as they are bound.
    pub globals: Fields<'a>,
    /// The names that its loads bind.
    pub loaded: Bindings<'a>,
    /// The defaults of its functions, by the function's number.
    pub defaults: Defaults<'a>,
}

/// The defaults of the functions of a file, by the function's number, in the order of the
/// parameters.
#[derive(Drop)]
pub struct Defaults<'a> {
    functions: Vec<Items<'a>>,
}

impl<'a> Model for Defaults<'a> {
    ghost use Rattle.std.specs.Prelude.{List};
    ghost use Rattle.values.specs.declared.value.Value.{Value as Held};

    ghost Value = { List (List Held) };

    ghost use Rattle.std.specs.Coded.{coded_list};
    ghost use Rattle.values.specs.ValueCodes.{items_code};

    ghost coded = { coded_list items_code };

    ghost view = { λ d. d.functions.items };
}

impl<'a> Defaults<'a> {
    /// Of no function.
    pub fn new(alloc: Global) -> Defaults<'a>
        ensures { result ≡ [] }
    {
        Defaults {
            functions: Vec::new(alloc),
        }
    }

    /// Of one function more. After a refusal of memory they are as they were.
    ///
    /// # Errors
    ///
    /// `AllocError` where memory was refused.
    pub fn push(&mut self, defaults: Items<'a>) -> Result<(), AllocError>
        ensures ok { OnOk result (self.new ≡ self.old ++ defaults.entry ∷ []) }
        ensures err { OnErr result (self.new ≡ self.old) }
    {
        self.functions.push(defaults)?;
        Ok(())
    }

    /// How many functions there are.
    pub fn len(&self) -> usize
        ensures { result ≡ length self.now }
    {
        self.functions.len()
    }

    /// The defaults of a function.
    pub fn get(&self, function: usize) -> Option<&Items<'a>>
        ensures { option_copied result ≡ slice_get self.now function }
    {
        self.functions.get(function)
    }

    /// Gives a function its defaults.
    pub fn set(&mut self, function: usize, defaults: Items<'a>)
        requires { function < length self.old }
        ensures { self.new ≡ slice_set self.old function defaults.entry }
    {
        let _old = replace(&mut self.functions[function], defaults);
    }
}
