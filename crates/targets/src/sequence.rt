//! Things in order.
ghost use Rattle.std.specs.Prelude.{◌≡◌, ◌++◌, ◌∷◌, [], IfOk, OnOk, OnErr, length};

use std::alloc::{AllocError, Global};
use std::marker::Model;

/// Things in order: to a contract a list.
#[derive(Drop)]
pub struct Sequence<T> {
    items: Vec<T>,
}

impl<T> Model for Sequence<T> {
    ghost use Rattle.std.specs.Prelude.{List};
    ghost use Rattle.std.specs.Coded.{coded_list};

    ghost Value = { List T };

    ghost coded = { coded_list T.code };

    ghost view = { λ s. s.items.items };
}

impl<T> Sequence<T> {
    /// Nothing yet, which takes no memory.
    pub fn new(alloc: Global) -> Sequence<T>
        ensures { result ≡ [] }
    {
        Sequence {
            items: Vec::new(alloc),
        }
    }

    /// Nothing yet, with memory for so many.
    ///
    /// # Errors
    ///
    /// `AllocError` where memory was refused.
    pub fn with_capacity(alloc: Global, count: usize) -> Result<Sequence<T>, AllocError>
        ensures { IfOk result (λ s. s ≡ []) }
    {
        let items = Vec::with_capacity(alloc, count)?;
        Ok(Sequence { items })
    }

    /// How many there are.
    pub fn len(&self) -> usize
        ensures { result ≡ length self.now }
    {
        self.items.len()
    }

    /// All of them, in order.
    pub fn as_slice(&self) -> &[T]
        ensures { result.now ≡ self.now }
    {
        self.items.as_slice()
    }
}

impl<T: Drop> Sequence<T> {
    /// Puts one last. After a refusal of memory they are as they were.
    ///
    /// # Errors
    ///
    /// `AllocError` where memory was refused.
    pub fn push(&mut self, item: T) -> Result<(), AllocError>
        ensures ok { OnOk result (self.new ≡ self.old ++ item ∷ []) }
        ensures err { OnErr result (self.new ≡ self.old) }
    {
        self.items.push(item)?;
        Ok(())
    }
}
