//! The workspaces whose requests are timed.

use made_workspaces::{
    chained_modules, layered_modules, layered_targets, listing_module, looping_module,
    plain_targets,
};
use std::alloc::{AllocError, Global};
use std::fmt::{Display, Error, Formatter, Write};

/// How many turns a loop has.
const TURNS: usize = 1_000_000;

/// A workspace that is made for measurements.
#[derive(Clone, Copy)]
pub enum Workload {
    /// 65,535 targets that depend on nothing, and one that depends on all of them.
    Plain,
    /// 20,000 targets in 40 layers, of which each depends on four, and one above.
    Layers,
    /// 20,000 targets that depend on nothing, and one that depends on all of them.
    Single,
    /// 20,000 targets in 20 layers, of which each depends on so many, and one above. By 40, the
    /// report has 243 MB.
    Degree(usize),
    /// 10,000 modules in 10 layers, of which each loads from 12 of the layer before.
    Modules,
    /// A chain of 100,000 modules.
    Chain,
    /// A cycle of 100,000 modules.
    Cycle,
    /// A module whose list of 1,000,000 tuples is frozen; a turn of `tuple` makes one that isn't.
    Frozen,
    /// A module that goes 1,000,000 times round a loop.
    Loop(Turn),
}

/// What a turn of a loop does.
#[derive(Clone, Copy)]
pub struct Turn {
    name: &'static str,
    statement: &'static str,
}

/// The workspaces that aren't loops.
const WHOLE: [Workload; 9] = [
    Workload::Plain,
    Workload::Layers,
    Workload::Single,
    Workload::Degree(2),
    Workload::Degree(40),
    Workload::Modules,
    Workload::Chain,
    Workload::Cycle,
    Workload::Frozen,
];

/// The turns, each by its name and its statement: of each group of operations one or two.
const TURNS_OF: [(&str, &str); 27] = [
    ("nothing", "pass"),
    ("arithmetic", "x = i * 3 + 1"),
    ("division", "x = i // 7 % 5"),
    ("comparison", "x = i < 5 or i == 7"),
    ("equality", "x = l == [1, 2, 4]"),
    ("concatenation", "x = s + str(i)"),
    ("method", "x = s.startswith('te')"),
    ("joining", "x = s.join([s, s])"),
    ("call", "x = f(i)"),
    ("list", "l[i % 3] = i"),
    ("dict", "d[i % 64] = i"),
    ("membership", "x = i in d"),
    ("field", "x = p.x"),
    ("index", "x = l[i % 3]"),
    ("byte", "x = s[i % 4]"),
    ("append", "l.append(i)"),
    ("extend", "l.extend([i])"),
    ("increase", "l += [i]"),
    ("tuple", "x = (i, i)"),
    ("unpacking", "x, y = (i, i)"),
    ("splitting", "x = 'a b c'.split(' ')"),
    ("get", "x = d.get(i % 64)"),
    ("keys", "x = d.keys()"),
    ("depset", "x = depset([i], transitive = [e])"),
    ("listing", "x = e.to_list()"),
    ("instance", "x = P(x = i)"),
    ("comprehension", "x = [y for y in l]"),
];

impl Workload {
    /// The input that spells it.
    pub fn input(self, alloc: Global) -> Result<String, AllocError> {
        match self {
            Workload::Plain => plain_targets(alloc, 65_535),
            Workload::Layers => layered_targets(alloc, 40, 500, 4),
            Workload::Single => plain_targets(alloc, 20_000),
            Workload::Degree(degree) => layered_targets(alloc, 20, 1_000, degree),
            Workload::Modules => layered_modules(alloc, 10, 1_000, 12),
            Workload::Chain => chained_modules(alloc, 100_000, false),
            Workload::Cycle => chained_modules(alloc, 100_000, true),
            Workload::Frozen => listing_module(alloc, TURNS),
            Workload::Loop(turn) => looping_module(alloc, TURNS, turn.statement),
        }
    }

    /// Whether more workers than one have anything to do.
    pub fn has_many_targets(self) -> bool {
        matches!(
            self,
            Workload::Plain | Workload::Layers | Workload::Single | Workload::Degree(_)
        )
    }
}

impl Display for Workload {
    fn fmt<W: Write>(&self, f: &mut Formatter<W>) -> Result<(), Error> {
        match self {
            Workload::Plain => f.write_str("plain"),
            Workload::Layers => f.write_str("layers"),
            Workload::Single => f.write_str("degree-0"),
            Workload::Degree(degree) => write!(f, "degree-{degree}"),
            Workload::Modules => f.write_str("modules"),
            Workload::Chain => f.write_str("chain"),
            Workload::Cycle => f.write_str("cycle"),
            Workload::Frozen => f.write_str("frozen"),
            Workload::Loop(turn) => f.write_str(turn.name),
        }
    }
}

/// All workspaces.
pub fn all(alloc: Global) -> Result<Vec<Workload>, AllocError> {
    let mut found = Vec::new(alloc);
    for workload in WHOLE {
        found.push(workload)?;
    }
    for (name, statement) in TURNS_OF {
        found.push(Workload::Loop(Turn { name, statement }))?;
    }
    Ok(found)
}
