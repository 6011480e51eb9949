//! Sequences that are unpacked onto a stack.
ghost use Rattle.std.specs.Prelude.{IfOk};
ghost use Rattle.values.specs.Seeing.{group_items};
ghost use Rattle.frames.specs.Answers.{Unpacked};

use frames::Stack;
use operands::Operand;
use std::alloc::AllocError;
use values::Group;

/// The items of a group go onto a stack, the first one at the top, where they are so many: what is
/// lent there is lent here. Where they aren't so many, the stack stays as it was.
///
/// # Errors
///
/// `AllocError` where memory was refused.
pub(crate) fn unpack<'a>(
    group: Group<'_, 'a>,
    count: usize,
    onto: &mut Stack<Operand<'a>>,
) -> Result<bool, AllocError>
    ensures { IfOk result (λ fits. Unpacked (group_items group.entry) count onto.old fits
        onto.new) }
{
    if group.len() != count {
        return Ok(false);
    }
    let mut place = count;
    while place > 0 {
        place -= 1;
        onto.push(group.operand(place)?)?;
    }
    Ok(true)
}
