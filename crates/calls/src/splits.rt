//! The parts of a string, as a list of the language.
ghost use Rattle.std.specs.Prelude.{◌≡◌, ◌++◌, ◌∷◌, [], Ok, Err, Some, None, IfOk};
ghost use Rattle.std.specs.Prelude.{OnOk, map};
ghost use Rattle.strings.specs.Splitting.{split_of};
ghost use Rattle.values.specs.Seeing.{seen};
ghost use Rattle.operations.specs.States.{Does, Gives, then_give};
ghost use Rattle.operations.specs.Reading.{string_in, of_type};
ghost use Rattle.operations.specs.Making.{text};
ghost use Rattle.operations.specs.Strings.{split, or_string_fault, string_fault};

use operands::Operand;
use operations::{Made, State};
use plain::Text;
use state::{place, text_of};
use std::alloc::{AllocError, Global};
use strings::{StringError, StringRefusal};
use values::{Broken, Items, Key, Kind, Seen, Value};

/// `text.split(separator)`: a new list of the parts between occurrences of the separator.
///
/// # Errors
///
/// `type`, where the separator is no string or empty; then `large`. `NoMemory` where memory was
/// refused.
pub fn split(
    alloc: Global,
    state: &mut State,
    text: &Text,
    separator: &Operand<'_>,
) -> Result<Value, Broken>
    ensures { Does (split text.now separator.now) state.old result state.new }
{
    let made = parts_of(alloc, text, &state.heap.see_item(separator.item()))?;
    place(state, made)
}

/// The parts between what a separator shows.
fn parts_of<'a>(alloc: Global, whole: &Text, separator: &Seen<'_, '_>) -> Result<Made<'a>, Broken>
    ensures { Gives (of_type (string_in (seen separator.now))
        (λ sep. then_give (or_string_fault (split_of sep whole.now))
        (λ ts. Ok (Made.List (map text ts))))) result }
{
    match text_of(separator) {
        Some(separator) => parts(alloc, whole, separator),
        None => Err(Broken::Kind(Kind::Wrong)),
    }
}

/// The parts between a separator.
fn parts<'a>(alloc: Global, whole: &Text, separator: &Text) -> Result<Made<'a>, Broken>
    ensures { Gives (then_give (or_string_fault (split_of separator.now whole.now))
        (λ ts. Ok (Made.List (map text ts)))) result }
{
    match strings::split(alloc, whole.as_str(), separator.as_str()) {
        Ok(parts) => Ok(Made::List(text_items(alloc, &parts)?)),
        Err(StringRefusal::String(error)) => Err(Broken::Kind(string_fault(error))),
        Err(StringRefusal::NoMemory) => Err(Broken::NoMemory),
    }
}

/// The fault that a refusal is.
pub(crate) fn string_fault(error: StringError) -> Kind
    ensures { result ≡ string_fault error }
{
    match error {
        StringError::EmptySeparator => Kind::Wrong,
        StringError::Index => Kind::Index,
        StringError::Large => Kind::Large,
    }
}

/// Texts as values.
fn text_items<'a>(alloc: Global, texts: &[Text]) -> Result<Items<'a>, AllocError>
    ensures { IfOk result (λ items. items ≡ map text texts.now) }
{
    let mut items = Items::with_capacity(alloc, texts.len())?;
    for text in texts {
        put_text(text, &mut items)?;
    }
    Ok(items)
}

/// Puts a text last, as a value.
fn put_text(string: &Text, items: &mut Items) -> Result<(), AllocError>
    ensures { OnOk result (items.new ≡ items.old ++ text string.now ∷ []) }
{
    let string = string.share()?;
    items.push(Operand::own(Value::Key(Key::Text(string))))?;
    Ok(())
}
