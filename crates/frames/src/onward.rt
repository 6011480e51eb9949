//! How an instruction ends that puts a value onto its frame's stack.

ghost use Rattle.std.specs.Prelude.{◌<◌, ◌^◌};
ghost use Rattle.frames.specs.Onward.{Puts, PutsGiven};

use crate::frame::Frame;
use crate::stop::{Step, Stop, stop_at};
use operands::Operand;
use values::{Broken, Value};

/// A value is put onto the frame's stack, and the frame goes on at its next instruction.
#[inline(always)]
pub(crate) fn put<'a, T>(f: &mut Frame<'a, T>, value: Operand<'a>) -> Result<Step, Stop>
    requires { f.old.place < 2 ^ 63 }
    ensures { Puts value.entry f.old result f.new }
{
    f.values.push(value)?;
    f.place += 1;
    Ok(Step::More)
}

/// What an operation gave is put onto the frame's stack, as a value of its own; or it broke, at
/// this line.
#[inline(always)]
pub(crate) fn put_own<'a, T>(
    f: &mut Frame<'a, T>,
    line: usize,
    given: Result<Value, Broken>,
) -> Result<Step, Stop>
    requires { f.old.place < 2 ^ 63 }
    ensures { PutsGiven line given f.old result f.new }
{
    match given {
        Ok(value) => put(f, Operand::own(value)),
        Err(broken) => Err(stop_at(broken, f.function.file, line)),
    }
}

/// What an operation gave is put onto the frame's stack; or it broke, at this line.
#[inline(always)]
pub(crate) fn put_given<'a, T>(
    f: &mut Frame<'a, T>,
    line: usize,
    given: Result<Operand<'a>, Broken>,
) -> Result<Step, Stop>
    requires { f.old.place < 2 ^ 63 }
    ensures { PutsGiven line given.entry f.old result f.new }
{
    match given {
        Ok(value) => put(f, value),
        Err(broken) => Err(stop_at(broken, f.function.file, line)),
    }
}
