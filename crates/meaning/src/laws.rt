//! What is so of the definitions, each as the contract of a function that does nothing.

ghost use Rattle.meaning.specs.Correct.{CallsAreMeant, EachHasALine, FunctionsAreMeant};
ghost use Rattle.meaning.specs.Correct.{LinesAreKept, TopLevelsAreMeant};
ghost use Rattle.meaning.specs.EndsIn.{Terminates};
ghost use Rattle.meaning.specs.Instructions.{Codes};
ghost use Rattle.meaning.specs.Linked.{AreFileCodes};
ghost use Rattle.meaning.specs.Operations.{Operations};

/// The instructions of files do what the files mean, whatever the operations do on whatever states
/// and values: a run ends with the value and the state, and so the ticks, or with the fault, its
/// kind, file and line, of the meaning. It ends in no other way, and it never gets stuck. So end
/// calls of values from outside, functions by their numbers, which are called at the lines of their
/// `def`s, and top levels of files.
pub fn compiled_code_is_correct<S, V, K>()
    ensures calls { (ops : Operations S V K) → CallsAreMeant ops }
    ensures functions { (ops : Operations S V K) → FunctionsAreMeant ops }
    ensures top_levels { (ops : Operations S V K) → TopLevelsAreMeant ops }
{}

/// The line of a function's `def`, at which it is called from outside, can be read in its file's
/// instructions; and each function but the top levels has one.
pub fn functions_have_lines()
    ensures kept { LinesAreKept }
    ensures each { EachHasALine }
{}

/// Each run of linked codes that were compiled ends, after a number of instructions that the start
/// decides.
pub fn compiled_code_ends<S, V, K>()
    ensures { (ops : Operations S V K) (codes : Codes) → AreFileCodes codes → Terminates ops codes }
{}
