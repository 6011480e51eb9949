//! The operators that only whole numbers have.

/// `-`, `*`, `//` and `%`.
#[derive(Clone, Copy, PartialEq, Eq, Debug)]
pub enum Arithmetic {
    Minus,
    Times,
    FloorDiv,
    Modulo,
}
