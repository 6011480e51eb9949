//! Values where they are stored.
ghost use Rattle.std.specs.Prelude.{◌≡◌, IfOk};
ghost use Rattle.operands.specs.Lying.{stored_value};

use std::alloc::AllocError;
use values::{Item, Operand};

/// A value that is stored: where what lives longer lends it, or where it is kept.
#[derive(Clone, Copy)]
pub enum Stored<'a, 'b> {
    /// What lives longer lends it.
    Lent(Item<'a>),
    /// It is kept here.
    Kept(&'b Operand<'a>),
}

impl<'a, 'b> Stored<'a, 'b> {
    /// An operand of it: no count where it is lent, and else at most one.
    ///
    /// # Errors
    ///
    /// `AllocError` where a count is at its greatest.
    #[inline(always)]
    pub fn operand(self) -> Result<Operand<'a>, AllocError>
        ensures { IfOk result (λ o. o ≡ stored_value self.entry) }
    {
        match self {
            Stored::Lent(item) => Ok(Operand::lent(item)),
            Stored::Kept(value) => value.share(),
        }
    }
}
