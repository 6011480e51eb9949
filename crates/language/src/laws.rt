//! What is so of files over these operations, as the contract of a function that does nothing.

ghost use Rattle.language.specs.Laws.{FilesAreMeant};

/// The instructions of files do what the files mean, over the operations on the states of
/// evaluations, whatever the linked files are and whatever the place has: calls of values from
/// outside, functions by their numbers, and top levels of files.
pub fn compiled_files_are_meant<W>()
    ensures { FilesAreMeant W }
{}
