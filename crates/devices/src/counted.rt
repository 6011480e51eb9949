//! Devices that bytes are read from and written to, which tell what they know of their bytes and
//! count their failures.

ghost use Rattle.std.specs.Prelude.{◌≡◌, ◌≤◌, ℕ, Bool, false, List, Option, IfOk, is_ok, length};
ghost use Rattle.std.specs.Io.KnownBytes.{Keeps, ReadConsumes, WriteAppends};
ghost use Rattle.devices.specs.Devices.{CountsFailure, CountsStall, one_more};

use std::io;
use std::io::{Read, Write};

/// What an input is read from.
///
/// It tells the bytes that it has left, where these are known, and counts the reads that failed.
pub trait Source {
    /// The bytes that are left; `None` where they aren't known, as of standard input.
    ghost remaining: { Self → Option (List ℕ) };

    /// How many reads have failed.
    ghost failures: { Self → ℕ };

    /// Reads into the beginning of `buf` and says how many bytes it put there; none is the end.
    ///
    /// # Errors
    ///
    /// Where the device failed, or was interrupted. Each error is counted.
    fn read(&mut self, buf: &mut [u8]) -> io::Result<usize>
        ensures bound { IfOk result (λ n. n ≤ length buf.new) }
        ensures bytes { ReadConsumes (remaining self.old) (remaining self.new) result buf.new }
        ensures counted { CountsFailure (failures self.old) (failures self.new) result };
}

/// What a report is written to.
///
/// It tells the bytes that it holds, where these are known, and counts the calls that failed.
pub trait Sink {
    /// The bytes that it holds; `None` where they aren't known, as of standard output.
    ghost contents: { Self → Option (List ℕ) };

    /// How many calls have failed.
    ghost failures: { Self → ℕ };

    /// Whether the last call was a flush that succeeded, so that nothing is kept back.
    ghost flushed: { Self → Bool };

    /// Writes a beginning of `piece` and says how long it is.
    ///
    /// # Errors
    ///
    /// Where the device failed, or was interrupted. Each error is counted, and so is a call that
    /// takes none of a piece that isn't empty.
    fn write(&mut self, piece: &[u8]) -> io::Result<usize>
        ensures bound { IfOk result (λ n. n ≤ length piece.now) }
        ensures bytes { WriteAppends (contents self.old) (contents self.new) result piece.now }
        ensures counted { CountsStall (failures self.old) (failures self.new) result piece.now }
        ensures unflushed { flushed self.new ≡ false };

    /// Hands on what the device has kept back.
    ///
    /// # Errors
    ///
    /// Where the device failed, or was interrupted. Each error is counted.
    fn flush(&mut self) -> io::Result<()>
        ensures bytes { Keeps (contents self.old) (contents self.new) }
        ensures counted { CountsFailure (failures self.old) (failures self.new) result }
        ensures flushed { flushed self.new ≡ is_ok result };
}

/// A reader or a writer of std, with a count of its failures: a [`Source`] or a [`Sink`].
#[derive(Drop)]
pub struct Counted<D> {
    /// The reader or the writer.
    pub device: D,
    /// How many of its calls failed. The count stays at the greatest `u64`.
    pub failures: u64,
    /// Of a writer, whether its last call was a flush that succeeded.
    pub flushed: bool,
}

impl<D> Counted<D> {
    /// A device of which no failure is counted yet.
    pub fn new(device: D) -> Counted<D>
        ensures device { result.device ≡ device }
        ensures none { result.failures ≡ 0 }
        ensures unflushed { result.flushed ≡ false }
    {
        Counted {
            device,
            failures: 0,
            flushed: false,
        }
    }
}

/// A count after one more failure.
fn one_more(failures: u64) -> u64
    ensures { result ≡ one_more failures }
{
    failures.saturating_add(1)
}

impl<R: Read> Source for Counted<R> {
    ghost remaining = { λ c. R.remaining c.device };

    ghost failures = { λ c. c.failures };

    fn read(&mut self, buf: &mut [u8]) -> io::Result<usize> {
        match self.device.read(buf) {
            Ok(n) => Ok(n),
            Err(error) => {
                self.failures = one_more(self.failures);
                Err(error)
            }
        }
    }
}

impl<W: Write> Sink for Counted<W> {
    ghost contents = { λ c. W.contents c.device };

    ghost failures = { λ c. c.failures };

    ghost flushed = { λ c. c.flushed };

    fn write(&mut self, piece: &[u8]) -> io::Result<usize> {
        self.flushed = false;
        match self.device.write(piece) {
            Ok(n) => {
                if n == 0 && !piece.is_empty() {
                    self.failures = one_more(self.failures);
                }
                Ok(n)
            }
            Err(error) => {
                self.failures = one_more(self.failures);
                Err(error)
            }
        }
    }

    fn flush(&mut self) -> io::Result<()> {
        match self.device.flush() {
            Ok(()) => {
                self.flushed = true;
                Ok(())
            }
            Err(error) => {
                self.flushed = false;
                self.failures = one_more(self.failures);
                Err(error)
            }
        }
    }
}
