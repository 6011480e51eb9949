//! Values that operations made, as operands.
ghost use Rattle.std.specs.Prelude.{◌≡◌};

use values::{Broken, Operand, Value};

/// A value that was made, or why there is none.
///
/// # Errors
///
/// What was given in place of a value.
#[inline(always)]
pub fn owned<'a>(made: Result<Value, Broken>) -> Result<Operand<'a>, Broken>
    ensures { result ≡ made }
{
    Ok(Operand::own(made?))
}
