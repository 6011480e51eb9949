//! A call of a method of `ctx.actions`.
ghost use Rattle.std.specs.Prelude.{◌≡◌, Ok, MatchResult};
ghost use Rattle.ticks.specs.Ticking.{FaultOr};
ghost use Rattle.operations.specs.Arguments.{given};
ghost use Rattle.contexts.specs.Actions.{method_call, declare_file, write, run};

use crate::declaring::declare_file;
use crate::mnemonics::Mnemonics;
use crate::programs::Program;
use crate::registering::write;
use crate::running::run;
use contexts::{ActionMethod, Work};
use heap::Heap;
use operations::Arguments;
use std::alloc::Global;
use values::{Broken, Value};
use workspace::Label;

/// What a method gives to the implementation of the target of a label, whose work it adds to. Files
/// that it declares share the label's text.
///
/// # Errors
///
/// The first of `arity`, `type`, `place` and `key`, as `docs/PROFILE.md` says of calls for files
/// and actions; `NoMemory` where memory was refused.
pub(crate) fn call_method(
    alloc: Global,
    label: &Label,
    mnemonics: &Mnemonics,
    method: ActionMethod,
    heap: &Heap,
    arguments: &Arguments<'_, '_>,
    work: &mut Work,
) -> Result<Value, Broken>
    ensures { MatchResult result
        (λ v. method_call label.now method heap.now (given arguments.now) work.old
        ≡ Ok (v, work.new))
        (λ e. FaultOr (method_call label.now method heap.now (given arguments.now) work.old) e) }
{
    match method {
        ActionMethod::DeclareFile => declare_file(alloc, label, heap, arguments, work),
        ActionMethod::Write => write(alloc, mnemonics, heap, arguments, work),
        ActionMethod::Run => run(alloc, mnemonics, Program::Executable, heap, arguments, work),
        ActionMethod::RunShell => run(alloc, mnemonics, Program::Command, heap, arguments, work),
    }
}
