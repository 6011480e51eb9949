//! The slots of a function.

ghost use Rattle.std.specs.Prelude.{◌≡◌, ◌<◌, ◌-◌, [], ◌∷◌, ◌++◌, length, slice_get, slice_set};
ghost use Rattle.std.specs.Prelude.{option_and_then, option_copied, IfOk, Option};
ghost use Rattle.meaning.specs.Outcome.{put, cleared};
ghost use Rattle.values.specs.declared.value.Value as held;

use crate::emptying::empty;
use operands::Operand;
use plain::push_last;
use std::alloc::{AllocError, Global};
use std::marker::Model;

/// The slots of a function, in which its local names have their values once they are set.
#[derive(Drop)]
pub struct Slots<'a> {
    items: Vec<Option<Operand<'a>>>,
}

impl<'a> Model for Slots<'a> {
    ghost use Rattle.std.specs.Prelude.{List, Option};
    ghost use Rattle.values.specs.declared.value.Value.{Value as Held};
    ghost use Rattle.values.specs.ValueCodes.{fields_code};

    ghost Value = { List (Option Held) };

    ghost coded = { fields_code };

    ghost view = { λ s. s.items.items };
}

impl<'a> Slots<'a> {
    /// No slots, which take no memory yet.
    pub fn new(alloc: Global) -> Slots<'a>
        ensures { result ≡ [] }
    {
        Slots {
            items: Vec::new(alloc),
        }
    }

    /// Lets all slots go; the memory of 1,024 at most is kept for others.
    #[inline(always)]
    pub fn let_go(&mut self)
        ensures { self.new ≡ [] }
    {
        empty(&mut self.items);
    }

    /// Memory for so many slots more.
    ///
    /// # Errors
    ///
    /// Memory was refused.
    pub fn reserve(&mut self, slots: usize) -> Result<(), AllocError>
        ensures { IfOk result (λ _. self.new ≡ self.old) }
    {
        self.items.reserve(slots)?;
        Ok(())
    }

    /// A slot, if it is there.
    #[inline(always)]
    pub fn get(&self, slot: usize) -> Option<&Option<Operand<'a>>>
        ensures { option_copied result ≡ slice_get self.now slot }
    {
        self.items.get(slot)
    }

    /// What is set in a slot, taken out of it, if anything is.
    #[inline(always)]
    pub fn take(&mut self, slot: usize) -> Option<Operand<'a>>
        ensures { result ≡ option_and_then (λ o. o) (slice_get self.old slot) }
    {
        if slot < self.items.len() {
            self.items[slot].take()
        } else {
            None
        }
    }

    /// How many slots there are.
    #[inline(always)]
    pub fn len(&self) -> usize
        ensures { result ≡ length self.now }
    {
        self.items.len()
    }

    /// One slot more.
    ///
    /// # Errors
    ///
    /// Memory was refused.
    #[inline(always)]
    pub fn push(&mut self, value: Option<Operand<'a>>) -> Result<(), AllocError>
        ensures { IfOk result (λ _. self.new ≡ self.old ++ value.entry ∷ []) }
    {
        push_last(&mut self.items, value)
    }

    /// A slot that is there gets a value, or is emptied.
    #[inline(always)]
    fn set(&mut self, slot: usize, value: Option<Operand<'a>>)
        requires { slot < length self.old }
        ensures { self.new ≡ slice_set self.old slot value.entry }
    {
        self.items[slot] = value;
    }

    /// Makes slots up to this one, if they aren't there.
    #[tactic(auto, using(crate::proofs::Putting::put_grown))]
    #[inline(always)]
    fn reach(&mut self, slot: usize) -> Result<(), AllocError>
        ensures there { IfOk result (λ _. slot < length self.new) }
        ensures same { IfOk result (λ _. (v : Option held.Value)
            → put slot v self.new ≡ put slot v self.old) }
    {
        while self.len() <= slot {
            self.push(None)?;
        }
        Ok(())
    }

    /// A slot gets a value, or is emptied.
    ///
    /// # Errors
    ///
    /// Memory was refused.
    #[tactic(auto, using(crate::proofs::Putting::put_there))]
    #[inline(always)]
    pub fn put(&mut self, slot: usize, value: Option<Operand<'a>>) -> Result<(), AllocError>
        ensures { IfOk result (λ _. self.new ≡ put slot value.entry self.old) }
    {
        self.reach(slot)?;
        self.set(slot, value);
        Ok(())
    }

    /// Nothing is set in the slots from the first one up to the end.
    ///
    /// # Errors
    ///
    /// Memory was refused.
    #[tactic(auto, using(crate::proofs::Putting::cleared_next))]
    pub fn clear(&mut self, first: usize, end: usize) -> Result<(), AllocError>
        ensures { IfOk result (λ _. self.new ≡ cleared (end - first) first self.old) }
    {
        for slot in first..end {
            self.put(slot, None)?;
        }
        Ok(())
    }
}
