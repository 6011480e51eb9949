//! The arguments of a call of what isn't written in Starlark.

use operands::Operand;
use plain::Text;

/// Arguments where they lie: those by position, and those by name, whose names and values stand by
/// place.
#[derive(Clone, Copy)]
pub struct Arguments<'a, 'v> {
    /// Those by position, in order.
    pub items: &'a [Operand<'v>],
    /// The names of those by name, in order.
    pub names: &'a [Text],
    /// The values of those by name, each at the place of its name.
    pub values: &'a [Operand<'v>],
}
