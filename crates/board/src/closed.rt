//! A board at its end, which can only be asked.
ghost use Rattle.std.specs.Prelude.{◌≡◌, ◌<◌, length, map, None, Some, MatchOption};
ghost use Rattle.once_cell.specs.Once.{cell_name};
ghost use Rattle.board.specs.Views.{told, IsLevel};

use crate::memory::Memory;
use once_cell::race::OnceBox;
use std::marker::Model;

/// The values that some pass of a board knew, how many nodes are not finished, and whether some
/// pass set the halt.
#[derive(Drop)]
pub struct Closed<V> {
    cells: Vec<OnceBox<V>>,
    memory: Memory<V>,
    left: u64,
    halted: bool,
}

impl<V> Model for Closed<V> {
    ghost use Rattle.std.specs.Prelude.{◌≡◌, map};
    ghost use Rattle.once_cell.specs.Once.{cell_name};
    ghost use Rattle.board.specs.Views.{ClosedView, IsLevel};

    ghost Value = { ClosedView V };

    ghost view = { λ c. record { known = c.memory.known; left = c.left; halted = c.halted } };

    ghost invariant = { λ c. (c.memory.cells ≡ map cell_name c.cells.items) × IsLevel c.memory };
}

impl<V> Closed<V> {
    /// A closed board of these parts.
    pub(crate) fn of(
        cells: Vec<OnceBox<V>>,
        memory: Memory<V>,
        left: u64,
        halted: bool,
    ) -> Closed<V>
        requires { (memory.cells ≡ map cell_name cells.items) × IsLevel memory }
        ensures { (result.known ≡ memory.known) × (result.left ≡ left) × (result.halted ≡ halted) }
    {
        Closed {
            cells,
            memory,
            left,
            halted,
        }
    }

    /// The node's value, exactly where some pass knew it.
    pub fn get(&self, n: usize) -> Option<&V>
        requires node { n < length self.now.known }
        ensures value { MatchOption result
            (told self.now n ≡ None)
            (λ v. told self.now n ≡ Some v.now) }
    {
        if !self.memory.has(n) {
            return None;
        }
        let cell = &self.cells[n];
        let mut note = cell.note();
        self.memory.tell(n, &mut note);
        cell.get_as(&mut note)
    }

    /// How many nodes are not finished.
    pub fn left(&self) -> u64
        ensures { result ≡ self.now.left }
    {
        self.left
    }

    /// Whether some pass set the halt.
    pub fn halted(&self) -> bool
        ensures { result ≡ self.now.halted }
    {
        self.halted
    }
}
