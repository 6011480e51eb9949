//! How a string begins and ends.
ghost use Rattle.std.specs.Prelude.{Ok, Err, Some};
ghost use Rattle.operations.specs.States.{DoesKind};
ghost use Rattle.operations.specs.Strings.{starts_with, ends_with};

use operands::Operand;
use operations::State;
use plain::Text;
use state::text_of;
use strings::search::{has_back, has_front};
use values::{Key, Kind, Value};

/// `text.startswith(front)`.
///
/// # Errors
///
/// `type`, where the front is no string.
pub fn starts_with(state: &State, text: &Text, front: &Operand<'_>) -> Result<Value, Kind>
    ensures { DoesKind (starts_with text.now front.now) state.now result state.now }
{
    let Some(front) = text_of(&state.heap.see_item(front.item())) else {
        return Err(Kind::Wrong);
    };
    let begins = has_front(text.as_str(), front.as_str());
    Ok(Value::Key(Key::Truth(begins)))
}

/// `text.endswith(back)`.
///
/// # Errors
///
/// `type`, where the back is no string.
pub fn ends_with(state: &State, text: &Text, back: &Operand<'_>) -> Result<Value, Kind>
    ensures { DoesKind (ends_with text.now back.now) state.now result state.now }
{
    let Some(back) = text_of(&state.heap.see_item(back.item())) else {
        return Err(Kind::Wrong);
    };
    let ends = has_back(text.as_str().as_bytes(), back.as_str().as_bytes());
    Ok(Value::Key(Key::Truth(ends)))
}
