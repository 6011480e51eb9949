//! What values show, those that lie in a heap among them: what equality, freezing and `str` look
//! at. Nothing is shared or copied to look.
ghost use Rattle.std.specs.Prelude.{◌≡◌, slice_get};
ghost use Rattle.values.specs.Seeing.{item_value, seen};
ghost use Rattle.values.specs.Shape.{cell_shape, shape};

use crate::Heap;
use values::{Item, Operand, Seen};

impl<'a> Heap<'a> {
    /// What an item shows.
    #[inline(always)]
    pub fn see_item<'b>(&'b self, item: Item<'b>) -> Seen<'b, 'a>
        ensures { seen result ≡ shape self.now (item_value item.entry) }
    {
        match item {
            Item::Key(key) => Seen::Key(key),
            Item::Leaf(leaf) => Seen::Leaf(leaf),
            Item::Cell(number) => self.see_cell(number),
            Item::Branch(branch) => branch.see(),
        }
    }

    /// What an operand shows: what lies in a frozen value that is lent, as lent.
    #[inline(always)]
    pub fn see<'b>(&'b self, operand: &'b Operand<'a>) -> Seen<'b, 'a>
        ensures { seen result ≡ shape self.now operand.now }
    {
        match operand.lent_seen() {
            Some(seen) => seen,
            None => self.see_item(operand.item()),
        }
    }

    /// What the cell of this number shows.
    #[inline(always)]
    fn see_cell<'b>(&'b self, number: usize) -> Seen<'b, 'a>
        ensures { seen result ≡ cell_shape (slice_get self.now number) }
    {
        match self.cell(number) {
            Some(cell) => cell.see(),
            None => Seen::Nothing,
        }
    }
}
