//! Second names of faults.
ghost use Rattle.std.specs.Prelude.{◌≡◌, IfOk};

use lexer::FaultKind;
use loading::{LoadFaultKind, Placed};
use modules::FileFault;
use std::alloc::AllocError;
use values::Kind;

/// The same kind of fault.
fn share_kind(kind: &Kind) -> Result<Kind, AllocError>
    ensures { IfOk result (λ k. k ≡ kind.now) }
{
    match kind {
        Kind::Name => Ok(Kind::Name),
        Kind::Unset => Ok(Kind::Unset),
        Kind::Wrong => Ok(Kind::Wrong),
        Kind::Frozen => Ok(Kind::Frozen),
        Kind::Iterating => Ok(Kind::Iterating),
        Kind::Index => Ok(Kind::Index),
        Kind::Key => Ok(Kind::Key),
        Kind::Overflow => Ok(Kind::Overflow),
        Kind::Zero => Ok(Kind::Zero),
        Kind::Steps => Ok(Kind::Steps),
        Kind::Recursion => Ok(Kind::Recursion),
        Kind::Arity => Ok(Kind::Arity),
        Kind::Large => Ok(Kind::Large),
        Kind::Deep => Ok(Kind::Deep),
        Kind::Order => Ok(Kind::Order),
        Kind::Place => Ok(Kind::Place),
        Kind::Fail(text) => Ok(Kind::Fail(text.share()?)),
    }
}

/// The same kind of load fault.
fn share_load_kind(
    kind: &LoadFaultKind<FaultKind, Kind>,
) -> Result<LoadFaultKind<FaultKind, Kind>, AllocError>
    ensures { IfOk result (λ k. k ≡ kind.now) }
{
    match kind {
        LoadFaultKind::Syntax(kind) => Ok(LoadFaultKind::Syntax(*kind)),
        LoadFaultKind::LoadCycle => Ok(LoadFaultKind::LoadCycle),
        LoadFaultKind::MissingFile => Ok(LoadFaultKind::MissingFile),
        LoadFaultKind::LoadedModuleFailed => Ok(LoadFaultKind::LoadedModuleFailed),
        LoadFaultKind::PrivateName => Ok(LoadFaultKind::PrivateName),
        LoadFaultKind::MissingName => Ok(LoadFaultKind::MissingName),
        LoadFaultKind::Evaluation(kind) => Ok(LoadFaultKind::Evaluation(share_kind(kind)?)),
        LoadFaultKind::Unexported => Ok(LoadFaultKind::Unexported),
    }
}

/// The same fault, whose texts are shared.
pub(crate) fn share_fault(
    fault: &FileFault<FaultKind, Kind>,
) -> Result<FileFault<FaultKind, Kind>, AllocError>
    ensures { IfOk result (λ f. f ≡ fault.now) }
{
    Ok(FileFault {
        path: fault.path.share()?,
        fault: Placed {
            kind: share_load_kind(&fault.fault.kind)?,
            path: fault.fault.path.share()?,
            line: fault.fault.line,
        },
    })
}
