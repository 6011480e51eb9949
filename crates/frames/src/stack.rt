//! A stack of what owns memory, seen from its top.

ghost use Rattle.std.specs.Prelude.{◌≡◌, List, [], ◌∷◌, length, reverse, IfOk, MatchOption};

use crate::emptying::empty;
use plain::push_last;
use std::alloc::{AllocError, Global};
use std::marker::Model;

/// A stack; the list that a clause sees has its top first.
#[derive(Drop)]
pub struct Stack<T> {
    items: Vec<T>,
}

impl<T> Model for Stack<T> {
    ghost use Rattle.std.specs.Prelude.{List, reverse};

    ghost Value = { List T };

    ghost view = { λ s. reverse s.items.items };
}

impl<T> Stack<T> {
    /// A stack without items, which takes no memory yet.
    pub fn new(alloc: Global) -> Stack<T>
        ensures { result ≡ [] }
    {
        Stack {
            items: Vec::new(alloc),
        }
    }

    /// A stack without items, with memory for so many.
    ///
    /// # Errors
    ///
    /// Memory was refused.
    pub fn with_capacity(alloc: Global, items: usize) -> Result<Stack<T>, AllocError>
        ensures { IfOk result (λ s. s ≡ []) }
    {
        let items = Vec::with_capacity(alloc, items)?;
        Ok(Stack { items })
    }

    /// How many items it has.
    #[inline(always)]
    pub fn len(&self) -> usize
        ensures { result ≡ length self.now }
    {
        self.items.len()
    }

    /// Puts an item on the top.
    ///
    /// # Errors
    ///
    /// Memory was refused.
    #[inline(always)]
    pub fn push(&mut self, item: T) -> Result<(), AllocError>
    where
        T: Drop,
        ensures { IfOk result (λ _. self.new ≡ item ∷ self.old) }
    {
        push_last(&mut self.items, item)
    }

    /// Takes the item off the top.
    #[inline(always)]
    pub fn pop(&mut self) -> Option<T>
        ensures { MatchOption result ((self.old ≡ []) × (self.new ≡ []))
            (λ x. self.old ≡ x ∷ self.new) }
    {
        self.items.pop()
    }

    /// Lets all items go; the memory of 1,024 at most is kept for others.
    #[inline(always)]
    pub fn clear(&mut self)
    where
        T: Drop,
        ensures { self.new ≡ [] }
    {
        empty(&mut self.items);
    }

    /// The stack whose bottom is the first of these items.
    pub fn of(items: Vec<T>) -> Stack<T>
        ensures { result ≡ reverse items.items }
    {
        Stack { items }
    }

    /// The items, the top first.
    #[inline(always)]
    pub fn into_vec(self) -> Vec<T>
        ensures { result.items ≡ self }
    {
        let mut items = self.items;
        items.reverse();
        items
    }
}
