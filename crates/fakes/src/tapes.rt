//! Devices over memory: a tape and a page that give and take a few bytes a call, and one of whose
//! calls fails where the test wants it.

ghost use Rattle.std.specs.Prelude.{◌≡◌, [], IfOk, string_len};

use devices::{Sink, Source};
use std::alloc::{AllocError, Global};
use std::io;

/// A text of this many bytes, all of them `x`.
///
/// # Errors
///
/// `AllocError` where memory was refused.
pub fn long_text(alloc: Global, length: usize) -> Result<String, AllocError>
    ensures { IfOk result (λ text. string_len text ≡ length) }
{
    "x".repeat(alloc, length)
}

/// How a call fails.
#[derive(Clone, Copy, PartialEq, Eq)]
pub enum Failing {
    /// It is interrupted, which counts as every other error.
    Interrupted,
    /// It takes no byte. A flush doesn't fail so.
    Stalled,
}

/// An input in memory.
#[derive(Drop)]
pub struct Tape<'a> {
    /// What is left of it.
    pub left: &'a [u8],
    /// How many calls there were.
    pub calls: u64,
    piece: usize,
    failing: Option<u64>,
    failures: u64,
}

impl Tape<'_> {
    /// An input that gives at most `piece` bytes a call, and whose call of the number `failing`,
    /// from 0 on, fails.
    pub fn new(left: &[u8], piece: usize, failing: Option<u64>) -> Tape<'_>
        ensures { (result.left.now ≡ left.now) × (result.calls ≡ 0) }
    {
        Tape {
            left,
            calls: 0,
            piece,
            failing,
            failures: 0,
        }
    }
}

impl Source for Tape<'_> {
    ghost use Rattle.std.specs.Prelude.{Some};

    ghost remaining = { λ t. Some t.left.now };

    ghost failures = { λ t. t.failures };

    fn read(&mut self, buf: &mut [u8]) -> io::Result<usize> {
        let fails = self.failing == Some(self.calls);
        self.calls = self.calls.saturating_add(1);
        if fails {
            self.failures = self.failures.saturating_add(1);
            return Err(io::Error::from(io::ErrorKind::Interrupted));
        }
        let n = self.left.len().min(buf.len()).min(self.piece.max(1));
        let (now, later) = self.left.split_at(n);
        buf[..n].copy_from_slice(now);
        self.left = later;
        Ok(n)
    }
}

/// A page in memory.
#[derive(Drop)]
pub struct Page {
    /// What was written.
    pub bytes: Vec<u8>,
    /// How many calls there were, flushes among them.
    pub calls: u64,
    piece: usize,
    failing: Option<u64>,
    how: Failing,
    failures: u64,
    flushed: bool,
}

impl Page {
    /// A page that takes at most `piece` bytes a call, and whose call of the number `failing`, from
    /// 0 on, fails.
    pub fn new(alloc: Global, piece: usize, failing: Option<u64>, how: Failing) -> Page
        ensures { (result.bytes.items ≡ []) × (result.calls ≡ 0) }
    {
        Page {
            bytes: Vec::new(alloc),
            calls: 0,
            piece,
            failing,
            how,
            failures: 0,
            flushed: false,
        }
    }
}

impl Sink for Page {
    ghost use Rattle.std.specs.Prelude.{Some};

    ghost contents = { λ p. Some p.bytes.items };

    ghost failures = { λ p. p.failures };

    ghost flushed = { λ p. p.flushed };

    fn write(&mut self, piece: &[u8]) -> io::Result<usize> {
        self.flushed = false;
        let fails = self.failing == Some(self.calls);
        self.calls = self.calls.saturating_add(1);
        if fails {
            if self.how == Failing::Stalled && piece.is_empty() {
                return Ok(0);
            }
            self.failures = self.failures.saturating_add(1);
            return match self.how {
                Failing::Interrupted => Err(io::Error::from(io::ErrorKind::Interrupted)),
                Failing::Stalled => Ok(0),
            };
        }
        let n = piece.len().min(self.piece.max(1));
        match self.bytes.extend_from_slice(&piece[..n]) {
            Ok(()) => Ok(n),
            Err(_) => {
                self.failures = self.failures.saturating_add(1);
                Err(io::Error::from(io::ErrorKind::OutOfMemory))
            }
        }
    }

    fn flush(&mut self) -> io::Result<()> {
        self.flushed = false;
        let fails = self.failing == Some(self.calls);
        self.calls = self.calls.saturating_add(1);
        if fails && self.how == Failing::Interrupted {
            self.failures = self.failures.saturating_add(1);
            return Err(io::Error::from(io::ErrorKind::Interrupted));
        }
        self.flushed = true;
        Ok(())
    }
}
