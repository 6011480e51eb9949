//! A flag for each node, sixty-four in a word.
ghost use Rattle.std.specs.Prelude.{◌≡◌, ◌≢◌, ◌↔◌, ℕ, ◌*◌, ◌/◌, ◌<◌, ◌≤◌, length, true, false};
ghost use Rattle.std.specs.Prelude.{IsTrue, IfOk};
ghost use Rattle.std.specs.Bool.{OnTrue};
ghost use Rattle.std.specs.Int.{bit_at};
ghost use Rattle.board.specs.Flags.{is_up};

use std::alloc::{AllocError, Global};
use std::marker::Model;

/// Flags, of which none is up at first, and each can be raised; and whether one was.
#[derive(Drop)]
pub struct Flags {
    words: Vec<u64>,
    was_raised: bool,
}

impl Model for Flags {
    ghost use Rattle.std.specs.Prelude.{◌≡◌, ℕ, List, false};
    ghost use Rattle.board.specs.Flags.{is_up};

    ghost Value = { List ℕ };

    ghost view = { λ f. f.words.items };

    ghost invariant = { λ f. f.was_raised ≡ false → (n : ℕ) → is_up f.words.items n ≡ false };
}

fn has_bit(word: u64, k: usize) -> bool
    requires { k < 64 }
    ensures { IsTrue result ↔ (bit_at word k ≡ 1) }
{
    word & (1 << k) != 0
}

fn with_bit(word: u64, k: usize) -> u64
    requires { k < 64 }
    ensures set { bit_at result k ≡ 1 }
    ensures others { (i : ℕ) → i ≢ k → bit_at result i ≡ bit_at word i }
{
    word | (1 << k)
}

impl Flags {
    /// Flags for so many nodes, none of them up.
    ///
    /// # Errors
    ///
    /// `AllocError` where memory was refused.
    pub fn new(alloc: Global, nodes: usize) -> Result<Flags, AllocError>
        ensures room { IfOk result (λ f. nodes ≤ 64 * length f) }
        ensures down { IfOk result (λ f. (n : ℕ) → is_up f n ≡ false) }
    {
        let words = vec![in alloc; 0u64; nodes.div_ceil(64)]?;
        Ok(Flags {
            words,
            was_raised: false,
        })
    }

    /// Whether the flag of node `n` is up.
    pub fn is_up(&self, n: usize) -> bool
        requires { n < 64 * length self.now }
        ensures { result ≡ is_up self.now n }
    {
        has_bit(self.words[n / 64], n % 64)
    }

    /// Whether none was ever raised.
    pub fn is_new(&self) -> bool
        ensures { OnTrue result ((n : ℕ) → is_up self.now n ≡ false) }
    {
        !self.was_raised
    }

    /// Whether no flag of the 64 nodes is up that word `w` has.
    pub fn is_blank(&self, w: usize) -> bool
        requires { w < length self.now }
        ensures { OnTrue result ((n : ℕ) → n / 64 ≡ w → is_up self.now n ≡ false) }
    {
        self.words[w] == 0
    }

    /// Raises the flag of node `n`.
    pub fn raise(&mut self, n: usize)
        requires { n < 64 * length self.old }
        ensures room { length self.new ≡ length self.old }
        ensures up { is_up self.new n ≡ true }
        ensures others { (k : ℕ) → k ≢ n → is_up self.new k ≡ is_up self.old k }
    {
        let word = self.words[n / 64];
        self.words[n / 64] = with_bit(word, n % 64);
        self.was_raised = true;
    }
}
