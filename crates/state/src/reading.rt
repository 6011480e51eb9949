//! What a value is, where an operation asks for one type.
ghost use Rattle.std.specs.Prelude.{◌≡◌, option_copied, Some, None, MatchOption};
ghost use Rattle.values.specs.Seeing.{seen, group_items};
ghost use Rattle.operations.specs.Reading.{number_in, key_in, string_in, sequence_in};

use plain::Text;
use values::{Group, Key, Seen};

/// The whole number that a value is, if it is one.
#[inline(always)]
pub fn number_of(value: &Seen<'_, '_>) -> Option<i64>
    ensures { result ≡ number_in (seen value.now) }
{
    match value {
        Seen::Key(Key::Number(number)) => Some(*number),
        _ => None,
    }
}

/// The key that a value is, if it may be one.
#[inline(always)]
pub fn key_of<'b>(value: &Seen<'b, '_>) -> Option<&'b Key>
    ensures { option_copied result ≡ key_in (seen value.now) }
{
    match value {
        Seen::Key(key) => Some(key),
        _ => None,
    }
}

/// The string that a value is, if it is one.
#[inline(always)]
pub fn text_of<'b>(value: &Seen<'b, '_>) -> Option<&'b Text>
    ensures { option_copied result ≡ string_in (seen value.now) }
{
    match value {
        Seen::Key(Key::Text(text)) => Some(text),
        _ => None,
    }
}

/// The items of a list or a tuple.
#[inline(always)]
pub fn sequence_of<'b, 'a>(value: &Seen<'b, 'a>) -> Option<Group<'b, 'a>>
    ensures { MatchOption result (sequence_in (seen value.now) ≡ None)
        (λ g. sequence_in (seen value.now) ≡ Some (group_items g)) }
{
    match value {
        Seen::List(items) => Some(*items),
        Seen::Tuple(items) => Some(*items),
        _ => None,
    }
}
