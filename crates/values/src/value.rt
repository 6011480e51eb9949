//! A value, as a name holds it.
ghost use Rattle.std.specs.Prelude.{◌≡◌, IfOk};
ghost use Rattle.values.specs.Lying.{lying};
ghost use Rattle.values.specs.Seeing.{item_value};

use crate::operand::Lies;
use crate::{Branch, Item, Key, Leaf};
use std::alloc::AllocError;

/// A value: a key, a leaf, a cell of the heap by its number, or a frozen value with parts. A frozen
/// key or leaf is the key or the leaf, so that each value has one form.
pub enum Value {
    Key(Key),
    Leaf(Leaf),
    Cell(usize),
    Frozen(Branch),
}

impl Value {
    /// Another name of the same value: at most one count more, and nothing below it is copied.
    ///
    /// # Errors
    ///
    /// `AllocError` where a count is at its greatest.
    #[inline(always)]
    pub fn share(&self) -> Result<Value, AllocError>
        ensures { IfOk result (λ v. v ≡ self.now) }
    {
        match self {
            Value::Key(key) => Ok(Value::Key(key.share()?)),
            Value::Leaf(leaf) => Ok(Value::Leaf(leaf.share()?)),
            Value::Cell(number) => Ok(Value::Cell(*number)),
            Value::Frozen(branch) => Ok(Value::Frozen(branch.share()?)),
        }
    }

    /// It, as an operand's own.
    #[inline(always)]
    pub(crate) fn lies<'a>(self) -> Lies<'a>
        ensures { lying result ≡ self }
    {
        match self {
            Value::Key(key) => Lies::Key(key),
            Value::Leaf(leaf) => Lies::Leaf(leaf),
            Value::Cell(number) => Lies::Cell(number),
            Value::Frozen(branch) => Lies::Branch(branch),
        }
    }

    /// The value, where it lies.
    #[inline(always)]
    pub fn item(&self) -> Item<'_>
        ensures { item_value result ≡ self.now }
    {
        match self {
            Value::Key(key) => Item::Key(key),
            Value::Leaf(leaf) => Item::Leaf(leaf.lend()),
            Value::Cell(number) => Item::Cell(*number),
            Value::Frozen(branch) => Item::Branch(branch),
        }
    }
}

impl Clone for Value {
    ghost is_clone = { λ v w. w ≡ v };

    fn clone(&self) -> Result<Value, AllocError> {
        self.share()
    }
}

impl Drop for Value {
    #[inline(always)]
    fn drop(self) {
        match self {
            Value::Key(_) => {}
            Value::Leaf(_) => {}
            Value::Cell(_) => {}
            Value::Frozen(_) => {}
        }
    }
}
