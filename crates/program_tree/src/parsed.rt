//! A file as a whole.

use crate::program::Step;
use indexmap::IndexSet;
use plain::Text;

/// The tree of a file, with its names resolved.
#[derive(Drop)]
pub struct Parsed {
    /// The names that its top level binds, by number: first those that its loads bind, then its
    /// globals, each in the order of the text.
    pub globals: IndexSet<Text>,
    /// How many of these names its loads bind.
    pub loaded: usize,
    /// How many slots its top level has: those of the comprehensions that stand there.
    pub slots: usize,
    /// The statements of its top level.
    pub steps: Vec<Step>,
}
