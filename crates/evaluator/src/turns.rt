//! Walks that begin, and sequences that are unpacked.
ghost use Rattle.std.specs.Prelude.{◌≡◌, Ok, Err, IfOk};
ghost use Rattle.values.specs.Shape.{shape};
ghost use Rattle.operations.specs.Walks.{begin, parts, walked_items};
ghost use Rattle.language.specs.Place.{of_state};
ghost use Rattle.frames.specs.Answers.{SaysAs, Unpacks};
ghost use Rattle.evaluator.specs.Walked.{left_seen};

use crate::left::Left;
use crate::stacks;
use frames::Stack;
use heap::Heap;
use language::Whole;
use operands::Operand;
use std::alloc::AllocError;
use values::{Broken, Kind};

/// A walk over a value begins, and gives the items that it goes over. Those of what is lent stay
/// where they are.
pub(crate) fn begin<'a, W>(
    whole: &mut Whole<'a, W>,
    walked: &Operand<'a>,
) -> Result<Left<'a>, Broken>
    ensures { SaysAs left_seen (of_state (begin walked.now) whole.old) result whole.new }
{
    let left = left_of(&mut whole.state.heap, walked)?;
    state::begin(&mut whole.state, walked.item())?;
    Ok(left)
}

/// What a walk over a value goes over. The heap stays as it was.
fn left_of<'a>(heap: &mut Heap<'a>, walked: &Operand<'a>) -> Result<Left<'a>, AllocError>
    ensures same { heap.new ≡ heap.old }
    ensures ok { IfOk result (λ left. left_seen left
        ≡ walked_items (shape heap.old walked.now)) }
{
    match walked.lent_seen() {
        Some(walked) => Ok(Left::lent(&walked)),
        None => {
            let walked = walked.item().to_value()?;
            Left::own(heap, &walked)
        }
    }
}

/// The items of a sequence that is unpacked go onto a stack, the first one at the top, where they
/// are so many; the answer is whether they are. Those of what is lent are lent.
///
/// # Errors
///
/// `type`, where it is no list or tuple.
pub(crate) fn unpack<'a, W>(
    whole: &Whole<'a, W>,
    sequence: &Operand<'a>,
    count: usize,
    onto: &mut Stack<Operand<'a>>,
) -> Result<bool, Broken>
    ensures { Unpacks (of_state (parts sequence.now) whole.now) count onto.old result whole.now
        onto.new }
{
    match state::sequence_of(&whole.state.heap.see(sequence)) {
        Some(group) => Ok(stacks::unpack(group, count, onto)?),
        None => Err(Broken::Kind(Kind::Wrong)),
    }
}
