//! Codes that are linked.

ghost use Rattle.std.specs.Prelude.{◌≡◌, [], ◌∷◌, ◌++◌, MatchResult, option_copied};
ghost use Rattle.meaning.specs.Linked.{AreFileCodes};

use code::{Code, FunctionCode, Lined};
use frames::FunctionId;
use std::alloc::{AllocError, Global};

/// The codes of linked files, each compiled from a file of its own. A file's number is its place
/// among them.
#[derive(Drop)]
pub struct Linked {
    files: Vec<Code>,
    pub ghost compiled: { ∥ AreFileCodes files.items ∥₁ },
}

impl Linked {
    ghost use Rattle.meaning.specs.Instructions.{code_at, code_line};
    ghost use Rattle.frames.specs.Answers.{id_seen};
    ghost use Rattle.call_stack.specs.LinkedView.{IsCodeOf, codes_of};

    /// No files.
    pub fn new(alloc: Global) -> Linked
        ensures { codes_of result ≡ [] }
    {
        Linked {
            files: Vec::new(alloc),
        }
    }

    /// One file more: its number is how many there were. After an error they are as they were.
    ///
    /// # Errors
    ///
    /// Memory was refused.
    pub fn add(&mut self, code: Code) -> Result<(), AllocError>
        ensures { MatchResult result (λ _. codes_of self.new ≡ codes_of self.old ++ code ∷ [])
            (λ _. codes_of self.new ≡ codes_of self.old) }
    {
        let _compiled = code.functions();
        self.files.push(code)?;
        Ok(())
    }

    /// The code of a function; None where there is none.
    #[inline(always)]
    pub fn function(&self, function: FunctionId) -> Option<&FunctionCode>
        ensures { option_copied result ≡ code_at (codes_of self.now) (id_seen function) }
    {
        match self.files.get(function.file) {
            Some(code) => code.functions().get(function.number),
            None => None,
        }
    }

    /// The line of a function's `def`; a file's top level has none.
    pub fn def_line(&self, function: FunctionId) -> Option<usize>
        ensures { result ≡ code_line (codes_of self.now) (id_seen function) }
    {
        match self.function(function) {
            Some(code) => code.line(),
            None => None,
        }
    }

    /// The instructions of a function, each with its line; none where there is no such function.
    #[inline(never)]
    pub fn instructions(&self, function: FunctionId) -> &[Lined]
        ensures { IsCodeOf (codes_of self.now) (id_seen function) result.now }
    {
        match self.function(function) {
            Some(code) => code.instructions(),
            None => &[],
        }
    }
}
