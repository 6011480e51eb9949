//! What a label names.

use analysis::Needed;
use targets::Target;

/// What a label names.
#[derive(Clone, Copy)]
pub enum Named<'a> {
    /// A declared target.
    Target {
        /// The target.
        target: &'a Target,
        /// What it depends on, in order and each once.
        dependencies: &'a Needed,
    },
    /// A source file.
    SourceFile,
    /// Anything in a package whose `BUILD` file failed.
    FailedPackage,
    /// No target and no file.
    Nothing,
}
