//! What a file writes out, and what each file finds bound, onto a frame's stack.

ghost use Rattle.std.specs.Prelude.{◌<◌, ◌^◌};
ghost use Rattle.meaning.specs.Instructions as instr;
ghost use Rattle.frames.specs.Seen.{Performs};

use crate::frame::Frame;
use crate::onward::put;
use crate::stop::{Step, Stop};
use crate::world::Operate;
use keys::TextKey;
use operands::Operand;
use program_tree::Predeclared;

/// A number that the file writes out.
///
/// # Errors
///
/// [`Stop::NoMemory`] where memory is refused.
#[inline(always)]
pub fn push_number<'a, W: Operate<'a>>(
    world: &W,
    line: usize,
    number: u64,
    f: &mut Frame<'a, W::Walk>,
) -> Result<Step, Stop>
    requires { f.old.place < 2 ^ 63 }
    ensures { (s : W.State) → Performs W.rest (W.operations world.now) line (instr.push_number
        number) f.old s
        result f.new s }
{
    let value = world.number(number)?;
    put(f, Operand::own(value))
}

/// A string that the file writes out.
///
/// # Errors
///
/// [`Stop::NoMemory`] where memory is refused.
#[inline(always)]
pub fn push_text<'a, W: Operate<'a>>(
    world: &W,
    line: usize,
    text: &'a TextKey,
    f: &mut Frame<'a, W::Walk>,
) -> Result<Step, Stop>
    requires { f.old.place < 2 ^ 63 }
    ensures { (s : W.State) → Performs W.rest (W.operations world.now) line (instr.push_text
        text.now) f.old s
        result f.new s }
{
    put(f, world.string(text))
}

/// `None`.
///
/// # Errors
///
/// [`Stop::NoMemory`] where memory is refused.
#[inline(always)]
pub fn push_none<'a, W: Operate<'a>>(
    world: &W,
    line: usize,
    f: &mut Frame<'a, W::Walk>,
) -> Result<Step, Stop>
    requires { f.old.place < 2 ^ 63 }
    ensures { (s : W.State) → Performs W.rest (W.operations world.now) line instr.push_none f.old s
        result f.new s }
{
    let value = world.none();
    put(f, Operand::own(value))
}

/// What each file finds bound.
///
/// # Errors
///
/// [`Stop::NoMemory`] where memory is refused.
#[inline(always)]
pub fn push_builtin<'a, W: Operate<'a>>(
    world: &W,
    line: usize,
    name: Predeclared,
    f: &mut Frame<'a, W::Walk>,
) -> Result<Step, Stop>
    requires { f.old.place < 2 ^ 63 }
    ensures { (s : W.State) → Performs W.rest (W.operations world.now) line (instr.push_builtin
        name) f.old s
        result f.new s }
{
    put(f, world.predeclared(name))
}
