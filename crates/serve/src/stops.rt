//! Why a request ends without a report, and how the program ends.

ghost use Rattle.std.specs.Prelude.{◌≡◌};
ghost use Rattle.serve.specs.Closing.{closing_of};

use thiserror::Error;

/// Why an analysis gave no report.
#[derive(Clone, Copy, Debug, PartialEq, Eq, Error)]
pub enum AnalyseStop {
    /// The number of workers isn't one from 1 to 64. This is tested first.
    #[error("the number of workers isn't one from 1 to 64")]
    Workers,
    /// More labels are reached than [`NODE_LIMIT`](answers::NODE_LIMIT).
    #[error("too many nodes")]
    TooMany,
    /// Memory was refused.
    #[error("no memory")]
    NoMemory,
    /// A thread was refused, or the memory to start it.
    #[error("no thread")]
    NoThread,
}

/// Why a request got no whole report.
#[derive(Clone, Copy, Debug, PartialEq, Eq, Error)]
pub enum ServeStop {
    /// The words of the command line are refused. No byte was read.
    #[error("words refused")]
    Words,
    /// The words are in order, and the input is refused.
    #[error("input refused")]
    Input,
    /// More labels are reached than [`NODE_LIMIT`](answers::NODE_LIMIT).
    #[error("too many nodes")]
    TooMany,
    /// Memory was refused.
    #[error("no memory")]
    NoMemory,
    /// A thread was refused, or the memory to start it.
    #[error("no thread")]
    NoThread,
    /// The reader failed.
    #[error("the reader failed")]
    Read,
    /// The writer failed. A beginning of the report was written; after any other stop, nothing.
    #[error("the writer failed")]
    Write,
}

/// The exit status, and the line on standard error without its newline, or the empty text where
/// there is none. The status is 0 after a report that isn't loud and 1 after one that is, 2 where
/// words, input or the number of labels were refused, 3 where memory or a thread was, and 4 where a
/// device failed.
///
/// `Ok(true)` says that the report has a load fault, a failed target or a conflict.
pub fn closing(served: &Result<bool, ServeStop>) -> (u8, &'static str)
    ensures { (result.0, result.1.now) ≡ closing_of served.now }
{
    match served {
        Ok(false) => (0, ""),
        Ok(true) => (1, ""),
        Err(ServeStop::Words) => (2, "bzlan: words refused"),
        Err(ServeStop::Input) => (2, "bzlan: input refused"),
        Err(ServeStop::TooMany) => (2, "bzlan: too many nodes"),
        Err(ServeStop::NoMemory) => (3, "bzlan: no memory"),
        Err(ServeStop::NoThread) => (3, "bzlan: no thread"),
        Err(ServeStop::Read | ServeStop::Write) => (4, "bzlan: device failed"),
    }
}
