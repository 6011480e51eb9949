//! What is left out, and why.

use plain::Text;
use std::fmt;

/// Why something is left out. It prints what is the matter, and what to do.
#[derive(Clone, Copy, Debug, PartialEq, Eq, PartialOrd, Ord)]
pub enum Reason {
    /// Its path isn't a legal one.
    IllegalPath,
    /// It is a `BUILD.bazel` or a `MODULE.bazel`.
    BazelFile,
    /// It is a `BUILD` file or a module whose bytes aren't UTF-8.
    NotUtf8,
    /// It is a `BUILD` file or a module of too many bytes.
    TooLong,
    /// It is neither a folder, a file nor a link.
    Special,
    /// It is a folder in which some names aren't UTF-8: what they name is left out.
    NamesNotUtf8,
    /// It went away.
    Gone,
    /// It may not be read.
    Denied,
    /// Its path is too long for the system.
    NameTooLong,
    /// It couldn't be read otherwise.
    Failed,
}

impl Reason {
    /// What is the matter, and what to do.
    fn text(self) -> &'static str {
        match self {
            Reason::IllegalPath => {
                "isn't a legal path: name it with A-Z a-z 0-9 _ . - and /, in at most 200 bytes"
            }
            Reason::BazelFile => {
                "isn't served: rename a BUILD.bazel to BUILD, and do without a MODULE.bazel"
            }
            Reason::NotUtf8 => "isn't UTF-8: convert it",
            Reason::TooLong => "has more than 1048576 bytes: split it",
            Reason::Special => "is neither a file, a folder nor a link: move it away",
            Reason::NamesNotUtf8 =>
                "has names in it that aren't UTF-8, which are left out: rename them",
            Reason::Gone => "went away while it was read: run again",
            Reason::Denied => "may not be read: change its permissions",
            Reason::NameTooLong => "has too long a path for the system: move it up",
            Reason::Failed => "couldn't be read",
        }
    }
}

impl fmt::Display for Reason {
    fn fmt<W: fmt::Write>(&self, f: &mut fmt::Formatter<W>) -> fmt::Result {
        f.write_str(self.text())
    }
}

/// What is left out. It is ordered by its path.
#[derive(Drop, PartialEq, Eq, PartialOrd, Ord)]
pub struct LeftOut {
    /// Its path.
    pub path: Text,
    /// Why.
    pub reason: Reason,
}

impl fmt::Display for LeftOut {
    /// The path as a literal, so that it keeps to one line, and the reason.
    fn fmt<W: fmt::Write>(&self, f: &mut fmt::Formatter<W>) -> fmt::Result {
        let path = self.path.as_str();
        let reason = self.reason;
        write!(f, "{path:?} {reason}")
    }
}
