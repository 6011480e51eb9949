//! What a module keeps for its functions: frozen values, which are lent to those that run.
ghost use Rattle.std.specs.Prelude.{◌≡◌, ◌++◌, ◌∷◌, [], IfOk, OnOk, OnErr, option_copied, slice_get};

use plain::push_last;
use std::alloc::{AllocError, Global};
use std::marker::Model;
use values::Value;

/// The values of the names that the loads of a module bind, by number: None for each other name.
#[derive(Drop)]
pub struct LoadedValues {
    values: Vec<Option<Value>>,
}

impl Model for LoadedValues {
    ghost use Rattle.std.specs.Prelude.{List, Option};
    ghost use Rattle.values.specs.declared.value.Value.{Value as Held};
    ghost use Rattle.values.specs.ValueCodes.{fields_code};

    ghost Value = { List (Option Held) };

    ghost coded = { fields_code };

    ghost view = { λ l. l.values.items };
}

impl LoadedValues {
    /// These values.
    pub fn of(values: Vec<Option<Value>>) -> LoadedValues
        ensures { result ≡ values.items }
    {
        LoadedValues { values }
    }

    /// All of them, by number.
    pub fn as_slice(&self) -> &[Option<Value>]
        ensures { result.now ≡ self.now }
    {
        self.values.as_slice()
    }
}

/// The defaults of a function, in the order of its parameters.
#[derive(Drop)]
pub struct FunctionDefaults {
    values: Vec<Value>,
}

impl Model for FunctionDefaults {
    ghost use Rattle.std.specs.Prelude.{List};
    ghost use Rattle.values.specs.declared.value.Value.{Value as Held};
    ghost use Rattle.values.specs.ValueCodes.{items_code};

    ghost Value = { List Held };

    ghost coded = { items_code };

    ghost view = { λ d. d.values.items };
}

impl FunctionDefaults {
    /// None, with memory for so many.
    ///
    /// # Errors
    ///
    /// `AllocError` where memory was refused.
    pub fn with_capacity(alloc: Global, defaults: usize) -> Result<FunctionDefaults, AllocError>
        ensures { IfOk result (λ d. d ≡ []) }
    {
        let values = Vec::with_capacity(alloc, defaults)?;
        Ok(FunctionDefaults { values })
    }

    /// Puts a default last. After a refusal of memory they are as they were.
    ///
    /// # Errors
    ///
    /// `AllocError` where memory was refused.
    pub fn push(&mut self, value: Value) -> Result<(), AllocError>
        ensures ok { OnOk result (self.new ≡ self.old ++ value ∷ []) }
        ensures err { OnErr result (self.new ≡ self.old) }
    {
        push_last(&mut self.values, value)
    }

    /// All of them, in order.
    pub fn as_slice(&self) -> &[Value]
        ensures { result.now ≡ self.now }
    {
        self.values.as_slice()
    }
}

/// The defaults of the functions of a module, by the function's number.
#[derive(Drop)]
pub struct ModuleDefaults {
    functions: Vec<FunctionDefaults>,
}

impl Model for ModuleDefaults {
    ghost use Rattle.std.specs.Prelude.{List};
    ghost use Rattle.std.specs.Coded.{coded_list};
    ghost use Rattle.values.specs.declared.value.Value.{Value as Held};
    ghost use Rattle.values.specs.ValueCodes.{items_code};

    ghost Value = { List (List Held) };

    ghost coded = { coded_list items_code };

    ghost view = { λ d. d.functions.items };
}

impl ModuleDefaults {
    /// Of no function.
    pub fn new(alloc: Global) -> ModuleDefaults
        ensures { result ≡ [] }
    {
        ModuleDefaults {
            functions: Vec::new(alloc),
        }
    }

    /// Of one function more. After a refusal of memory they are as they were.
    ///
    /// # Errors
    ///
    /// `AllocError` where memory was refused.
    pub fn push(&mut self, defaults: FunctionDefaults) -> Result<(), AllocError>
        ensures ok { OnOk result (self.new ≡ self.old ++ defaults ∷ []) }
        ensures err { OnErr result (self.new ≡ self.old) }
    {
        self.functions.push(defaults)?;
        Ok(())
    }

    /// The defaults of a function.
    pub fn get(&self, function: usize) -> Option<&FunctionDefaults>
        ensures { option_copied result ≡ slice_get self.now function }
    {
        self.functions.get(function)
    }
}
