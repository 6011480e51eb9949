//! What an instruction comes to.

ghost use Rattle.std.specs.Prelude.{◌≡◌};
ghost use Rattle.frames.specs.Answers.{refusal_seen};
ghost use Rattle.frames.specs.Stopped.{stop_of, fault_at};

use crate::world::{Operate, Refusal};
use std::alloc::AllocError;
use values::{Broken, Kind, Value};

/// What an instruction leads to.
#[derive(Drop)]
pub enum Step {
    /// The run goes on.
    More,
    /// The run is over, with this value.
    Over(Value),
    /// The values that the instruction takes aren't there. Code that was compiled never comes
    /// there.
    Stuck,
}

/// A fault: its kind, the number of its file among those that are linked, and its line.
#[derive(Drop)]
pub struct Fault {
    pub kind: Kind,
    /// The number of its file among those that are linked.
    pub file: usize,
    /// The first line of the logical line where it is, counted from 1; 0 where there is none.
    pub line: usize,
}

/// Why a run stops before its end.
#[derive(Drop)]
pub enum Stop {
    /// Evaluation ended with a fault.
    Fault(Fault),
    /// Memory was refused.
    NoMemory,
}

impl From<AllocError> for Stop {
    ghost use Rattle.std.specs.Prelude.{◌≡◌};
    ghost use Rattle.frames.specs.declared.stop.Stop.TheVariants.{NoMemory};

    ghost from_gives = { λ _ stop. stop ≡ NoMemory };

    fn from(_error: AllocError) -> Stop {
        Stop::NoMemory
    }
}

/// What breaks an operation, at its place.
#[cold]
pub fn stop_at(broken: Broken, file: usize, line: usize) -> Stop
    ensures { result ≡ stop_of broken file line }
{
    match broken {
        Broken::Kind(kind) => Stop::Fault(Fault { kind, file, line }),
        Broken::NoMemory => Stop::NoMemory,
    }
}

/// A fault that evaluation finds, at its place.
#[cold]
pub fn refused<'a, W: Operate<'a>>(world: &W, refusal: Refusal, file: usize, line: usize) -> Stop
    ensures { result ≡ fault_at ((W.operations world.now).refusal (refusal_seen refusal)) file
        line }
{
    let kind = world.refusal(refusal);
    Stop::Fault(Fault { kind, file, line })
}
