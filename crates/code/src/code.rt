//! What a file is compiled to.

ghost use Rattle.std.specs.Prelude.{◌≡◌, option_copied, option_map, slice_get};
ghost use Rattle.code.specs.View.{lines_seen};
ghost use Rattle.meaning.specs.Linked.{IsFileCode};

use crate::instruction::Lined;
use plain::Text;
use std::marker::Model;

/// The code of a function.
#[derive(Drop)]
pub struct FunctionCode {
    pub(crate) name: Text,
    /// The line of its `def`; a file's top level has none.
    pub(crate) line: Option<usize>,
    pub(crate) params: Vec<Text>,
    /// How many slots it has.
    pub(crate) slots: usize,
    pub(crate) lines: Vec<Lined>,
}

impl Model for FunctionCode {
    ghost use Rattle.meaning.specs.Instructions as instr;

    ghost Value = { instr.FunctionCode };

    ghost use Rattle.code.specs.View.{lines_seen};

    ghost view = { λ f. record {
      name = f.name;
      line = f.line;
      params = f.params.items;
      slots = f.slots;
      code = lines_seen f.lines.items;
    } };
}

impl FunctionCode {
    /// Its name; a file's top level has none, which is the empty text.
    pub fn name(&self) -> &Text
        ensures { result.now ≡ self.now.name }
    {
        &self.name
    }

    /// The line of its `def`; a file's top level has none.
    pub fn line(&self) -> Option<usize>
        ensures { result ≡ self.now.line }
    {
        self.line
    }

    /// The names of its parameters.
    pub fn params(&self) -> &[Text]
        ensures { result.now ≡ self.now.params }
    {
        self.params.as_slice()
    }

    /// How many slots it has: its parameters have the first ones.
    pub fn slots(&self) -> usize
        ensures { result ≡ self.now.slots }
    {
        self.slots
    }

    /// Its instructions.
    pub fn instructions(&self) -> &[Lined]
        ensures { lines_seen result.now ≡ self.now.code }
    {
        self.lines.as_slice()
    }
}

/// The code of a file: that of its top level, and those of its functions, by number.
#[derive(Drop)]
pub struct Code {
    pub(crate) functions: Vec<FunctionCode>,
}

impl Model for Code {
    ghost use Rattle.std.specs.Prelude.{List};
    ghost use Rattle.meaning.specs.Instructions as instr;
    ghost use Rattle.meaning.specs.Linked.{IsFileCode};

    ghost Value = { List instr.FunctionCode };

    ghost view = { λ c. c.functions.items };

    ghost invariant = { λ c. IsFileCode c.functions.items };
}

impl Code {
    /// The code of its functions, by number: 0 is that of the top level. It is the code of a file,
    /// so what is said of runs of compiled code is so of it.
    pub fn functions(&self) -> &[FunctionCode]
        ensures all { result.now ≡ self.now }
        ensures compiled { IsFileCode self.now }
    {
        self.functions.as_slice()
    }

    /// The instructions of a function, by its number; None where there is none.
    pub fn instructions(&self, function: usize) -> Option<&[Lined]>
        ensures { option_map lines_seen (option_copied result) ≡ option_map
            (λ f. f.code) (slice_get self.now function) }
    {
        match self.functions.get(function) {
            Some(code) => Some(code.instructions()),
            None => None,
        }
    }
}
