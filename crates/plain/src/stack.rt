//! A stack, seen from its top.

ghost use Rattle.std.specs.Prelude.{◌≡◌, ◌<◌, List, [], ◌∷◌, length, reverse, IfOk, IfErr};
ghost use Rattle.std.specs.Prelude.{MatchOption};

use std::alloc::{AllocError, Global};
use std::marker::Model;

/// A stack of plain values; the list that a clause sees has its top first.
#[derive(Drop)]
pub struct Stack<T: Copy> {
    items: Vec<T>,
}

impl<T: Copy> Model for Stack<T> {
    ghost use Rattle.std.specs.Prelude.{List, reverse};

    ghost Value = { List T };

    ghost view = { λ s. reverse s.items.items };
}

impl<T: Copy> Stack<T> {
    /// A stack without items, which takes no memory yet.
    pub fn new(alloc: Global) -> Self
        ensures { result ≡ [] }
    {
        Stack {
            items: Vec::new(alloc),
        }
    }

    /// How many items it has.
    pub fn len(&self) -> usize
        ensures { result ≡ length self.now }
    {
        self.items.len()
    }

    /// Puts an item on the top.
    ///
    /// # Errors
    ///
    /// Memory was refused; the stack is as it was.
    pub fn push(&mut self, item: T) -> Result<(), AllocError>
        ensures ok { IfOk result (λ _. self.new ≡ item ∷ self.old) }
        ensures refused { IfErr result (λ _. self.new ≡ self.old) }
    {
        self.items.push(item)?;
        Ok(())
    }

    /// The item at the top, which stays.
    pub fn top(&self) -> Option<T>
        ensures { MatchOption result (self.now ≡ [])
            (λ x. (rest : List T) × (self.now ≡ x ∷ rest)) }
    {
        self.items.last().copied()
    }

    /// Takes the item off the top.
    pub fn pop(&mut self) -> Option<T>
        ensures { MatchOption result ((self.old ≡ []) × (self.new ≡ []))
            (λ x. self.old ≡ x ∷ self.new) }
    {
        self.items.pop()
    }
}
