//! The instructions of a function while they are written, from its last one to its first.
//!
//! Whoever writes puts instructions before those that are there. So the number of a jump is known
//! when it is written, since all that it passes stands already, and the list that a contract sees
//! has the first instruction at its head.

ghost use Rattle.std.specs.Prelude.{◌≡◌, ◌-◌, [], ◌∷◌, length, OnOk};
ghost use Rattle.code.specs.View.{instruction_seen, lines_seen};

use crate::instruction::{Instruction, Lined};
use std::alloc::{AllocError, Global};
use std::marker::Model;

/// Instructions that are written: those behind the next one.
#[derive(Drop)]
pub(crate) struct Emitter {
    /// The last one first.
    lines: Vec<Lined>,
}

impl Model for Emitter {
    ghost use Rattle.std.specs.Prelude.{List, reverse};
    ghost use Rattle.meaning.specs.Instructions as instr;

    ghost Value = { List instr.Lined };

    ghost use Rattle.code.specs.View.{lines_seen};

    ghost view = { λ e. lines_seen (reverse e.lines.items) };
}

impl Emitter {
    /// Nothing is written yet.
    pub(crate) fn new(alloc: Global) -> Emitter
        ensures { result ≡ [] }
    {
        Emitter {
            lines: Vec::new(alloc),
        }
    }

    /// How many instructions are written.
    pub(crate) fn len(&self) -> usize
        ensures { result ≡ length self.now }
    {
        self.lines.len()
    }

    /// How many instructions were written since so many were.
    pub(crate) fn since(&self, mark: usize) -> usize
        ensures { result ≡ length self.now - mark }
    {
        self.lines.len().saturating_sub(mark)
    }

    /// Puts an instruction before those that are written.
    pub(crate) fn put(&mut self, line: usize, instruction: Instruction) -> Result<(), AllocError>
        ensures { OnOk result (self.new ≡ (line, instruction_seen instruction) ∷ self.old) }
    {
        self.lines.push(Lined { line, instruction })?;
        Ok(())
    }

    /// The instructions, the first one first.
    pub(crate) fn into_lines(self) -> Vec<Lined>
        ensures { lines_seen result.items ≡ self }
    {
        let mut lines = self.lines;
        lines.reverse();
        lines
    }
}
