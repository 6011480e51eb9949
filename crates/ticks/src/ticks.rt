//! Ticks, the kinds of fault, and what a visit costs.
ghost use Rattle.std.specs.Prelude.{◌≡◌, ◌+◌, ◌≤◌, ◌<◌, Ok, Err, MatchResult, OnErr};
ghost use Rattle.ticks.specs.Ticking.{ticked, entered, Spends};
ghost use Rattle.ticks.specs.KindText.{kind_text};

use plain::Text;
use std::alloc::AllocError;
use std::error::Error;
use std::fmt;
use std::marker::Model;

/// The kinds of fault of an evaluation, named as a report prints them.
#[derive(PartialEq, Eq, Drop)]
pub enum Kind {
    /// No such field or method.
    Name,
    /// A name is read before it is set.
    Unset,
    /// `type`: an operation isn't for values of this type.
    Wrong,
    /// A frozen list or dict would change.
    Frozen,
    /// A list or dict would change while it is walked.
    Iterating,
    /// An index is outside.
    Index,
    /// A key is missing, or there twice.
    Key,
    /// A result is outside 64 bits.
    Overflow,
    /// A divisor is zero.
    Zero,
    /// The tick that is one more than the limit.
    Steps,
    /// A function is called while it is active.
    Recursion,
    /// The arguments or the items don't fit in number.
    Arity,
    /// A string, list, tuple or dict would be too large.
    Large,
    /// A value, a depset or the active functions would be too deep.
    Deep,
    /// The orders of depsets don't go together.
    Order,
    /// A call stands where it may not.
    Place,
    /// `fail`, with its text.
    Fail(Text),
}

/// A fault, or want of memory.
#[derive(PartialEq, Eq, Drop)]
pub enum Broken {
    /// A fault of the evaluation.
    Kind(Kind),
    /// Memory was refused.
    NoMemory,
}

impl Kind {
    /// The kind as a report names it. The text of `fail` isn't part of its name.
    pub fn name(&self) -> &'static str
        ensures { result.now ≡ kind_text self.now }
    {
        match self {
            Kind::Name => "name",
            Kind::Unset => "unset",
            Kind::Wrong => "type",
            Kind::Frozen => "frozen",
            Kind::Iterating => "iterating",
            Kind::Index => "index",
            Kind::Key => "key",
            Kind::Overflow => "overflow",
            Kind::Zero => "zero",
            Kind::Steps => "steps",
            Kind::Recursion => "recursion",
            Kind::Arity => "arity",
            Kind::Large => "large",
            Kind::Deep => "deep",
            Kind::Order => "order",
            Kind::Place => "place",
            Kind::Fail(_) => "fail",
        }
    }
}

impl fmt::Display for Kind {
    ghost use Rattle.std.specs.Prelude.{Some};
    ghost use Rattle.ticks.specs.KindText.{kind_text};

    ghost output = { λ k. Some (kind_text k) };

    fn fmt<W: fmt::Write>(&self, f: &mut fmt::Formatter<W>) -> fmt::Result {
        f.write_str(self.name())
    }
}

impl fmt::Display for Broken {
    ghost use Rattle.std.specs.Prelude.{Some};
    ghost use Rattle.ticks.specs.KindText.{broken_text};

    ghost output = { λ b. Some (broken_text b) };

    fn fmt<W: fmt::Write>(&self, f: &mut fmt::Formatter<W>) -> fmt::Result {
        match self {
            Broken::Kind(kind) => f.write_str(kind.name()),
            Broken::NoMemory => f.write_str("no memory"),
        }
    }
}

impl fmt::Debug for Kind {
    fn fmt<W: fmt::Write>(&self, f: &mut fmt::Formatter<W>) -> fmt::Result {
        f.write_str(self.name())
    }
}

impl fmt::Debug for Broken {
    fn fmt<W: fmt::Write>(&self, f: &mut fmt::Formatter<W>) -> fmt::Result {
        match self {
            Broken::Kind(kind) => f.write_str(kind.name()),
            Broken::NoMemory => f.write_str("no memory"),
        }
    }
}

impl Error for Kind {}

impl Error for Broken {}

impl From<AllocError> for Broken {
    ghost use Rattle.ticks.specs.declared.ticks.Broken.TheVariants.{NoMemory};

    ghost from_gives = { λ _ b. b ≡ NoMemory };

    fn from(_error: AllocError) -> Broken {
        Broken::NoMemory
    }
}

impl From<Kind> for Broken {
    ghost use Rattle.ticks.specs.declared.ticks.Broken.TheVariants as broken;

    ghost from_gives = { λ k b. b ≡ broken.Kind k };

    fn from(kind: Kind) -> Broken {
        Broken::Kind(kind)
    }
}

/// The greatest depth of a value that is visited, and of one that is frozen: the whole value is at
/// depth 1. (This project's own limit.)
pub const VISITED_LEVELS: u32 = 64;

/// Ticks used, of a limit.
#[derive(Drop)]
pub struct Ticks {
    limit: u64,
    used: u64,
}

impl Model for Ticks {
    ghost use Rattle.std.specs.Prelude.{◌≤◌};
    ghost use Rattle.ticks.specs.Ticking.{Count};

    ghost Value = { Count };

    ghost view = { λ t. record { limit = t.limit; used = t.used } };

    ghost invariant = { λ t. t.used ≤ t.limit };
}

impl Ticks {
    /// No tick used, of this limit.
    pub fn new(limit: u64) -> Ticks
        ensures { result ≡ record { limit = limit; used = 0 } }
    {
        Ticks { limit, used: 0 }
    }

    /// How many are used.
    pub fn used(&self) -> u64
        ensures { result ≡ self.now.used }
    {
        self.used
    }

    /// One tick more, or the fault `steps` where the limit is used up; then they stay as they were.
    ///
    /// # Errors
    ///
    /// `Steps` where the limit is used up.
    #[inline(always)]
    pub fn tick(&mut self) -> Result<(), Kind>
        ensures answer { MatchResult result (λ _. ticked self.old ≡ Ok self.new)
            (λ k. (k ≡ Kind.Steps) × (ticked self.old ≡ Err Kind.Steps)) }
        ensures spent { OnErr result (self.new ≡ self.old) }
    {
        if self.used < self.limit {
            self.used += 1;
            Ok(())
        } else {
            Err(Kind::Steps)
        }
    }

    /// So many ticks at once, and whether so many were left: else none is used.
    pub fn spend(&mut self, ticks: u64) -> bool
        ensures { Spends self.old ticks result self.new }
    {
        if ticks <= self.limit - self.used {
            self.used += ticks;
            true
        } else {
            false
        }
    }

    /// A visit of a value with this many levels left: a tick, and then the fault `deep` where none
    /// is left.
    ///
    /// # Errors
    ///
    /// `Steps` where the limit is used up, and else `Deep` where no level is left.
    #[inline(always)]
    pub fn enter(&mut self, left: u32) -> Result<(), Kind>
        ensures { MatchResult result (λ _. (entered left self.old ≡ Ok self.new) × (0 < left))
            (λ k. entered left self.old ≡ Err k) }
    {
        self.tick()?;
        if left == 0 {
            return Err(Kind::Deep);
        }
        Ok(())
    }
}
