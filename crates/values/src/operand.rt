//! Operands: values as cells, frames and names hold them.
//!
//! A value that lies in what lives longer, such as a linked module, is lent, so that holding and
//! reading it touches no count that other threads touch. A value that an operation made is the
//! operand's own. To a contract both are the value.
ghost use Rattle.std.specs.Prelude.{◌≡◌, List, IfOk, MatchOption};
ghost use Rattle.values.specs.declared.cells.Cell.{Cell as Kept};
ghost use Rattle.leaves.specs.Lent.{leaf_at};
ghost use Rattle.values.specs.Lying.{key_in_value, lying};
ghost use Rattle.values.specs.Seeing.{item_value, seen};
ghost use Rattle.values.specs.Shape.{shape};

use crate::{Branch, Item, Key, Leaf, LeafRef, MaybeLent, Seen, Value};
use std::alloc::AllocError;
use std::marker::Model;

/// Where an operand lies: with itself, or in what lives longer.
pub enum Lies<'a> {
    Key(Key),
    Leaf(Leaf),
    Cell(usize),
    Branch(Branch),
    LentKey(&'a Key),
    LentLeaf(LeafRef<'a>),
    LentBranch(&'a Branch),
}

impl<'a> Drop for Lies<'a> {
    #[inline(always)]
    fn drop(self) {
        match self {
            Lies::Key(_) => {}
            Lies::Leaf(_) => {}
            Lies::Cell(_) => {}
            Lies::Branch(_) => {}
            Lies::LentKey(_) => {}
            Lies::LentLeaf(_) => {}
            Lies::LentBranch(_) => {}
        }
    }
}

impl<'a> Lies<'a> {
    /// The value, for what keeps it.
    #[inline(always)]
    fn into_value(self) -> Result<Value, AllocError>
        ensures { IfOk result (λ v. v ≡ lying self.entry) }
    {
        match self {
            Lies::Key(key) => Ok(Value::Key(key)),
            Lies::Leaf(leaf) => Ok(Value::Leaf(leaf)),
            Lies::Cell(number) => Ok(Value::Cell(number)),
            Lies::Branch(branch) => Ok(Value::Frozen(branch)),
            Lies::LentKey(key) => Ok(Value::Key(key.share()?)),
            Lies::LentLeaf(leaf) => Ok(Value::Leaf(leaf.share()?)),
            Lies::LentBranch(branch) => Ok(Value::Frozen(branch.share()?)),
        }
    }
}

/// A value of one's own, or one that is lent.
#[derive(Drop)]
pub struct Operand<'a> {
    lies: Lies<'a>,
}

impl<'a> Model for Operand<'a> {
    ghost use Rattle.values.specs.declared.value.Value.{Value as Held};
    ghost use Rattle.values.specs.ValueCodes.{value_code};
    ghost use Rattle.values.specs.Lying.{lying};

    ghost Value = { Held };

    ghost coded = { value_code };

    ghost view = { λ o. lying o.lies };
}

impl<'a> Operand<'a> {
    /// A value of one's own.
    #[inline(always)]
    pub fn own(value: Value) -> Operand<'a>
        ensures { result ≡ value }
    {
        Operand { lies: value.lies() }
    }

    /// A value that lies in what lives longer.
    #[inline(always)]
    pub fn lent(item: Item<'a>) -> Operand<'a>
        ensures { result ≡ item_value item.entry }
    {
        let lies = match item {
            Item::Key(key) => Lies::LentKey(key),
            Item::Leaf(leaf) => Lies::LentLeaf(leaf),
            Item::Cell(number) => Lies::Cell(number),
            Item::Branch(branch) => Lies::LentBranch(branch),
        };
        Operand { lies }
    }

    /// A key that lies in what lives longer.
    #[inline(always)]
    pub fn lent_key(key: &'a Key) -> Operand<'a>
        ensures { result ≡ Value.Key key.now }
    {
        Operand {
            lies: Lies::LentKey(key),
        }
    }

    /// A leaf that lies in what lives longer.
    #[inline(always)]
    pub fn lent_leaf(leaf: LeafRef<'a>) -> Operand<'a>
        ensures { result ≡ Value.Leaf (leaf_at leaf.entry) }
    {
        Operand {
            lies: Lies::LentLeaf(leaf),
        }
    }

    /// The value, where it lies.
    #[inline(always)]
    pub fn item(&self) -> Item<'_>
        ensures { item_value result ≡ self.now }
    {
        match &self.lies {
            Lies::Key(key) => Item::Key(key),
            Lies::Leaf(leaf) => Item::Leaf(leaf.lend()),
            Lies::Cell(number) => Item::Cell(*number),
            Lies::Branch(branch) => Item::Branch(branch),
            Lies::LentKey(key) => Item::Key(*key),
            Lies::LentLeaf(leaf) => Item::Leaf(*leaf),
            Lies::LentBranch(branch) => Item::Branch(*branch),
        }
    }

    /// What is lent shows this, whatever heap there is, for as long as it is lent: None for a value
    /// of one's own, and for a cell, which only its heap can show.
    #[inline(always)]
    pub fn lent_seen(&self) -> Option<Seen<'a, 'a>>
        ensures { MatchOption result Unit
            (λ s. (heap : List Kept) → seen s ≡ shape heap self.now) }
    {
        match &self.lies {
            Lies::LentKey(key) => Some(Seen::Key(*key)),
            Lies::LentLeaf(leaf) => Some(Seen::Leaf(*leaf)),
            Lies::LentBranch(branch) => Some(branch.lend()),
            _ => None,
        }
    }

    /// The key that it is, if it is one, for what holds it: no count where it is lent, and else at
    /// most one.
    ///
    /// # Errors
    ///
    /// `AllocError` where a count is at its greatest.
    pub fn key(&self) -> Result<Option<MaybeLent<'a, Key>>, AllocError>
        ensures { IfOk result (λ k. k ≡ key_in_value self.now) }
    {
        match &self.lies {
            Lies::Key(key) => Ok(Some(MaybeLent::own(key.share()?))),
            Lies::LentKey(key) => Ok(Some(MaybeLent::lent(*key))),
            _ => Ok(None),
        }
    }

    /// Another operand of the same value: no count where it is lent, and else at most one.
    ///
    /// # Errors
    ///
    /// `AllocError` where a count is at its greatest.
    #[inline(always)]
    pub fn share(&self) -> Result<Operand<'a>, AllocError>
        ensures { IfOk result (λ o. o ≡ self.now) }
    {
        let lies = match &self.lies {
            Lies::Key(key) => Lies::Key(key.share()?),
            Lies::Leaf(leaf) => Lies::Leaf(leaf.share()?),
            Lies::Cell(number) => Lies::Cell(*number),
            Lies::Branch(branch) => Lies::Branch(branch.share()?),
            Lies::LentKey(key) => Lies::LentKey(*key),
            Lies::LentLeaf(leaf) => Lies::LentLeaf(*leaf),
            Lies::LentBranch(branch) => Lies::LentBranch(*branch),
        };
        Ok(Operand { lies })
    }

    /// The same value as one's own, for what outlives where it lies: at most a count more.
    ///
    /// # Errors
    ///
    /// `AllocError` where a count is at its greatest.
    #[inline(always)]
    pub fn into_own<'b>(self) -> Result<Operand<'b>, AllocError>
        ensures { IfOk result (λ o. o ≡ self.entry) }
    {
        Ok(Operand::own(self.into_value()?))
    }

    /// The value, for what keeps it: at most a count more where it is lent, and else none.
    ///
    /// # Errors
    ///
    /// `AllocError` where a count is at its greatest.
    #[inline(always)]
    pub fn into_value(self) -> Result<Value, AllocError>
        ensures { IfOk result (λ v. v ≡ self.entry) }
    {
        self.lies.into_value()
    }
}

impl<'a> Clone for Operand<'a> {
    ghost is_clone = { λ v w. w ≡ v };

    fn clone(&self) -> Result<Operand<'a>, AllocError> {
        self.share()
    }
}
