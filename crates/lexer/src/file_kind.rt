//! The two kinds of files, whose syntax differs in few places.

/// Which files a text is one of.
#[derive(Clone, Copy, PartialEq, Eq, Debug)]
pub enum FileKind {
    /// A `BUILD` file.
    Build,
    /// A module, as `rules.bzl`.
    Module,
}
