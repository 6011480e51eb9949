//! The defaults of functions, where they are stored.

ghost use Rattle.std.specs.Prelude.{◌≡◌, length, slice_get, option_map};
ghost use Rattle.operands.specs.Lying.{stored_value};
ghost use Rattle.frames.specs.Kept.{defaults_seen};

use operands::{Operand, Stored};
use values::Value;

/// The defaults that a function's `def` kept: a linked module lends them, or the state keeps them.
#[derive(Clone, Copy)]
pub enum Defaults<'a, 'b> {
    Lent(&'a [Value]),
    Kept(&'b [Operand<'a>]),
}

impl<'a, 'b> Defaults<'a, 'b> {
    /// How many there are.
    pub fn len(self) -> usize
        ensures { result ≡ length (defaults_seen self.entry) }
    {
        match self {
            Defaults::Lent(values) => values.len(),
            Defaults::Kept(values) => values.len(),
        }
    }

    /// The one at a place.
    pub fn get(self, place: usize) -> Option<Stored<'a, 'b>>
        ensures { option_map stored_value result ≡ slice_get (defaults_seen self.entry) place }
    {
        match self {
            Defaults::Lent(values) => match values.get(place) {
                Some(value) => Some(Stored::Lent(value.item())),
                None => None,
            },
            Defaults::Kept(values) => match values.get(place) {
                Some(value) => Some(Stored::Kept(value)),
                None => None,
            },
        }
    }
}
