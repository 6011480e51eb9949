//! The value of a number.

ghost use Rattle.std.specs.Prelude.{◌≡◌};
ghost use Rattle.lexer.specs.Begins.{number_of};

use crate::classes::is_digit;

/// The greatest number that can be written.
const GREATEST: u64 = 9_223_372_036_854_775_807;

/// The number that a digit spells with the bytes behind it. It is none where one of these is no
/// digit, where they follow `0`, and where it is too large.
pub(crate) fn value_of(first: u8, rest: &[u8]) -> Option<u64>
    ensures { result ≡ number_of first rest.now }
{
    if first == b'0' && !rest.is_empty() {
        return None;
    }
    let mut value = u64::from(first.saturating_sub(b'0'));
    for b in rest {
        if !is_digit(*b) {
            return None;
        }
        let digit = u64::from(b.saturating_sub(b'0'));
        if value > (GREATEST - digit) / 10 {
            return None;
        }
        value = value * 10 + digit;
    }
    Some(value)
}
