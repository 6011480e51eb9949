//! What names hold, by number.
ghost use Rattle.std.specs.Prelude.{◌≡◌, ◌<◌, None, IfOk, length, replicate, slice_get, slice_set};
ghost use Rattle.std.specs.Prelude.{option_copied};

use std::alloc::{AllocError, Global};
use std::marker::Model;
use values::{Operand, Value};

/// What each name holds, by its number: None where the name isn't bound.
#[derive(Drop)]
pub struct Bindings<'a> {
    names: Vec<Option<Operand<'a>>>,
}

impl<'a> Model for Bindings<'a> {
    ghost use Rattle.std.specs.Prelude.{List, Option};
    ghost use Rattle.values.specs.declared.value.Value.{Value as Held};
    ghost use Rattle.values.specs.ValueCodes.{fields_code};

    ghost Value = { List (Option Held) };

    ghost coded = { fields_code };

    ghost view = { λ b. b.names.items };
}

impl<'a> Bindings<'a> {
    /// So many names, none of which is bound.
    ///
    /// # Errors
    ///
    /// Memory was refused.
    pub fn unbound(alloc: Global, count: usize) -> Result<Bindings<'a>, AllocError>
        ensures { IfOk result (λ b. b ≡ replicate count None) }
    {
        let mut names = Vec::with_capacity(alloc, count)?;
        for _ in 0..count {
            names.push(None)?;
        }
        Ok(Bindings { names })
    }

    /// How many names there are.
    #[inline(always)]
    pub fn len(&self) -> usize
        ensures { result ≡ length self.now }
    {
        self.names.len()
    }

    /// What a name holds, if there is a name of this number.
    #[inline(always)]
    pub fn get(&self, number: usize) -> Option<&Option<Operand<'a>>>
        ensures { option_copied result ≡ slice_get self.now number }
    {
        self.names.get(number)
    }

    /// A name holds a value from now on, or nothing.
    #[inline(always)]
    pub fn set(&mut self, number: usize, value: Option<Operand<'a>>)
        requires { number < length self.old }
        ensures { self.new ≡ slice_set self.old number value.entry }
    {
        self.names[number] = value;
    }

    /// What the names hold, for what outlives where it lies: at most a count more for each.
    ///
    /// # Errors
    ///
    /// Memory was refused, or a count is at its greatest.
    pub fn to_values(&self, alloc: Global) -> Result<Vec<Option<Value>>, AllocError>
        ensures { IfOk result (λ v. v.items ≡ self.now) }
    {
        let mut values = Vec::with_capacity(alloc, self.names.len())?;
        for name in self.names.as_slice() {
            values.push(kept(name)?)?;
        }
        Ok(values)
    }
}

/// What a name holds, for what keeps it.
fn kept(name: &Option<Operand<'_>>) -> Result<Option<Value>, AllocError>
    ensures { IfOk result (λ v. v ≡ name.now) }
{
    match name {
        Some(value) => Ok(Some(value.item().to_value()?)),
        None => Ok(None),
    }
}
