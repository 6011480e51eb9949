//! Why there is no text.
ghost use Rattle.std.specs.Prelude.{◌≡◌};

use std::alloc::AllocError;

/// What the language refuses.
#[derive(Clone, Copy, PartialEq, Eq, Debug)]
pub enum StringError {
    /// A text is split by the empty text: the fault `type`.
    EmptySeparator,
    /// An index is outside of the text: the fault `index`.
    Index,
    /// A text has too many bytes, or is split into too many parts: the fault `large`.
    Large,
}

/// What the language refuses, or want of memory.
#[derive(Clone, Copy, PartialEq, Eq, Debug)]
pub enum StringRefusal {
    /// What the language refuses.
    String(StringError),
    /// Memory was refused.
    NoMemory,
}

impl From<AllocError> for StringRefusal {
    ghost use Rattle.strings.specs.declared.errors.StringRefusal.TheVariants.{NoMemory};

    ghost from_gives = { λ _ r. r ≡ NoMemory };

    fn from(_error: AllocError) -> StringRefusal {
        StringRefusal::NoMemory
    }
}

impl From<StringError> for StringRefusal {
    ghost use Rattle.strings.specs.declared.errors.StringRefusal.TheVariants.{String as Refused};

    ghost from_gives = { λ e r. r ≡ Refused e };

    fn from(error: StringError) -> StringRefusal {
        StringRefusal::String(error)
    }
}
