//! Why a text is refused.

use std::alloc::{AllocError, AllocFailed};
use std::error::Error;
use std::fmt;

/// The pass that finds a fault. Each pass goes over the whole text, in this order; the first one
/// that finds a fault decides, and within it the first place in the text.
#[derive(Clone, Copy, PartialEq, Eq, Debug)]
pub enum FaultKind {
    /// A byte that no file may hold.
    Character,
    /// A place where no token fits.
    Token,
    /// A bracket or a column that is wrong.
    Indent,
    /// A logical line that is no statement, or stands where it may not.
    Statement,
    /// A name that is bound or used where it may not be.
    Scope,
}

/// The first fault of a text, with its line, counted from 1.
#[derive(Clone, Copy, PartialEq, Eq, Debug)]
pub struct SyntaxFault {
    pub line: usize,
    /// The pass that found it.
    pub kind: FaultKind,
}

/// Why a text was not read.
#[derive(Clone, Copy, PartialEq, Eq, Debug)]
pub enum ParseStop {
    /// The text has a fault.
    Fault(SyntaxFault),
    /// Memory was refused; the text may have a fault or none.
    NoMemory,
}

/// Memory was refused.
#[derive(Clone, Copy, PartialEq, Eq, Debug)]
pub struct NoMemory;

impl From<AllocError> for NoMemory {
    fn from(_: AllocError) -> Self {
        NoMemory
    }
}

impl fmt::Display for FaultKind {
    ghost use Rattle.std.specs.Prelude.{Some};
    ghost use Rattle.lexer.specs.FaultText.{kind_text};

    ghost output = { λ x. Some (kind_text x) };

    fn fmt<W: fmt::Write>(&self, f: &mut fmt::Formatter<W>) -> fmt::Result {
        f.write_str(match self {
            FaultKind::Character => "character",
            FaultKind::Token => "token",
            FaultKind::Indent => "indent",
            FaultKind::Statement => "statement",
            FaultKind::Scope => "scope",
        })
    }
}

impl fmt::Display for SyntaxFault {
    ghost use Rattle.std.specs.Prelude.{Some};
    ghost use Rattle.lexer.specs.FaultText.{fault_text};

    ghost output = { λ x. Some (fault_text x) };

    fn fmt<W: fmt::Write>(&self, f: &mut fmt::Formatter<W>) -> fmt::Result {
        write!(f, "syntax {} at line {}", self.kind, self.line)
    }
}

impl fmt::Display for ParseStop {
    ghost use Rattle.std.specs.Prelude.{Some};
    ghost use Rattle.lexer.specs.FaultText.{stop_text};

    ghost output = { λ x. Some (stop_text x) };

    fn fmt<W: fmt::Write>(&self, f: &mut fmt::Formatter<W>) -> fmt::Result {
        match self {
            ParseStop::Fault(fault) => write!(f, "{fault}"),
            ParseStop::NoMemory => f.write_str("no memory"),
        }
    }
}

impl Error for ParseStop {}

impl From<AllocError> for ParseStop {
    ghost use Rattle.std.specs.Prelude.{◌≡◌};
    ghost use Rattle.lexer.specs.declared.fault.ParseStop.TheVariants.{NoMemory};

    ghost from_gives = { λ _ e. e ≡ NoMemory };

    fn from(_: AllocError) -> Self {
        ParseStop::NoMemory
    }
}

impl<T: Drop> From<AllocFailed<T>> for ParseStop {
    ghost use Rattle.std.specs.Prelude.{◌≡◌};
    ghost use Rattle.lexer.specs.declared.fault.ParseStop.TheVariants.{NoMemory};

    ghost from_gives = { λ _ e. e ≡ NoMemory };

    fn from(_: AllocFailed<T>) -> Self {
        ParseStop::NoMemory
    }
}
