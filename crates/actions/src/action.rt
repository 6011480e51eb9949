//! Actions: what a target registers, to be executed once analysis is over.
ghost use Rattle.std.specs.Prelude.{◌≡◌, ◌++◌, ◌∷◌, [], length, IfOk, OnOk, OnErr};

use depsets::{Depset, FileRef};
use plain::{Shared, Text};
use std::alloc::{AllocError, Global};
use std::marker::Model;

/// An action: a mnemonic, outputs, inputs, and the words of a command.
///
/// One that `ctx.actions` registers has at least one output, and its outputs are Files that its
/// target declared, each once; nothing here asks for that.
#[derive(Drop)]
pub struct Action {
    /// The kind of action, as a report names it.
    pub mnemonic: Text,
    /// What it makes.
    pub outputs: Files,
    /// What it reads.
    pub inputs: Inputs,
    /// The words of its command, in order.
    pub words: Words,
    /// The text that `write` writes, and None for every other action.
    pub content: Option<Text>,
}

/// The inputs of an action, as they were given: Files, or a depset of Files.
#[derive(Drop)]
pub enum Inputs {
    /// A list of Files.
    Files(Files),
    /// A depset of Files.
    Depset(Depset),
}

/// Files, in order.
#[derive(Drop)]
pub struct Files {
    items: Vec<Shared<FileRef>>,
}

impl Model for Files {
    ghost use Rattle.std.specs.Prelude.{List};
    ghost use Rattle.depsets.specs.declared.element.FileRef.{FileRef as File};

    ghost Value = { List File };

    ghost view = { λ f. f.items.items };
}

impl Files {
    /// No Files.
    pub fn new(alloc: Global) -> Files
        ensures { result ≡ [] }
    {
        Files {
            items: Vec::new(alloc),
        }
    }

    /// No Files, with memory for so many.
    ///
    /// # Errors
    ///
    /// `AllocError` where memory is refused.
    pub fn with_capacity(alloc: Global, count: usize) -> Result<Files, AllocError>
        ensures { IfOk result (λ f. f ≡ []) }
    {
        let items = Vec::with_capacity(alloc, count)?;
        Ok(Files { items })
    }

    /// Puts a File last. After a refusal of memory they are as they were.
    ///
    /// # Errors
    ///
    /// `AllocError` where memory is refused.
    pub fn push(&mut self, file: Shared<FileRef>) -> Result<(), AllocError>
        ensures ok { OnOk result (self.new ≡ self.old ++ file ∷ []) }
        ensures err { OnErr result (self.new ≡ self.old) }
    {
        self.items.push(file)?;
        Ok(())
    }

    /// All of them, in order.
    pub fn as_slice(&self) -> &[Shared<FileRef>]
        ensures { result.now ≡ self.now }
    {
        self.items.as_slice()
    }
}

/// Texts, in order: the words of a command, or labels.
#[derive(Drop)]
pub struct Words {
    items: Vec<Text>,
}

impl Model for Words {
    ghost use Rattle.std.specs.Prelude.{List, ℕ};

    ghost Value = { List (List ℕ) };

    ghost view = { λ w. w.items.items };
}

impl Words {
    /// No words.
    pub fn new(alloc: Global) -> Words
        ensures { result ≡ [] }
    {
        Words {
            items: Vec::new(alloc),
        }
    }

    /// Puts a word last. After a refusal of memory they are as they were.
    ///
    /// # Errors
    ///
    /// `AllocError` where memory is refused.
    pub fn push(&mut self, word: Text) -> Result<(), AllocError>
        ensures ok { OnOk result (self.new ≡ self.old ++ word ∷ []) }
        ensures err { OnErr result (self.new ≡ self.old) }
    {
        self.items.push(word)?;
        Ok(())
    }

    /// How many there are.
    pub fn len(&self) -> usize
        ensures { result ≡ length self.now }
    {
        self.items.len()
    }

    /// All of them, in order.
    pub fn as_slice(&self) -> &[Text]
        ensures { result.now ≡ self.now }
    {
        self.items.as_slice()
    }
}
