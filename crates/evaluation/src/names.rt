//! The names of the top level of a file.
ghost use Rattle.std.specs.Prelude.{◌≡◌, length, position, bytes_eq, MatchOption, slice_get, Some};
ghost use Rattle.std.specs.Prelude.{None};

use indexmap::IndexSet;
use plain::Text;
use std::marker::Model;

/// The names that the top level of a file binds, by number: first those that its loads bind, then
/// its globals, each in the order of the text.
#[derive(Drop)]
pub struct TopNames {
    names: IndexSet<Text>,
}

impl Model for TopNames {
    ghost use Rattle.std.specs.Prelude.{ℕ, List};

    ghost Value = { List (List ℕ) };

    ghost view = { λ n. n.names.keys };
}

impl TopNames {
    /// These names.
    pub fn of(names: IndexSet<Text>) -> TopNames
        ensures { result ≡ names.keys }
    {
        TopNames { names }
    }

    /// How many there are.
    pub fn len(&self) -> usize
        ensures { result ≡ length self.now }
    {
        self.names.len()
    }

    /// The number of a name.
    pub fn number(&self, name: &Text) -> Option<usize>
        ensures { result ≡ position (bytes_eq name.now) self.now }
    {
        self.names.get_index_of(name)
    }

    /// The name of a number.
    pub fn get(&self, number: usize) -> Option<&Text>
        ensures { MatchOption result (slice_get self.now number ≡ None)
            (λ t. slice_get self.now number ≡ Some t.now) }
    {
        self.names.get_index(number)
    }
}
