//! What is done with a node in tests.
ghost use Rattle.std.specs.Prelude.{◌≡◌, map, IfOk};
ghost use Rattle.pool_tests.specs.Examples.{bracketed};

use board::NoMemory;
use pool::{Analyse, NodeId};
use std::alloc::{AllocError, Global};
use std::marker::Model;

/// The outcome of a cyclic node in these tests.
pub(crate) const CYCLE: u64 = 999_999_999;

/// The outcome of a node is the number that was given to it, more by the first dependency's outcome
/// twice and the last one's.
#[derive(Drop)]
pub(crate) struct Mixing<'n> {
    /// The numbers that were given to the nodes.
    pub(crate) names: &'n [NodeId],
}

impl Analyse<u64> for Mixing<'_> {
    ghost use Rattle.pool_tests.specs.Examples.{mixed};
    ghost use Rattle.std.specs.Prelude.{length, slice_index};

    ghost nodes = { λ m. length m.names.now };

    ghost step = { λ m n us. mixed (slice_index m.names.now n) us };

    ghost fits = { λ m n us. Unit {0} };

    ghost cycle = { λ m. 999999999 };

    fn cyclic(&self, _alloc: Global) -> Result<u64, NoMemory> {
        Ok(CYCLE)
    }

    fn analyse_one(&self, _alloc: Global, n: NodeId, values: &[&u64]) -> Result<u64, NoMemory> {
        let first = if values.is_empty() { 0 } else { *values[0] };
        let last = if values.is_empty() {
            0
        } else {
            *values[values.len() - 1]
        };
        let twice = first.wrapping_add(first);
        let name = self.names[n.number()].number() as u64;
        Ok(name.wrapping_add(twice.wrapping_add(last)))
    }
}

/// The same, but there is no memory at one node.
#[derive(Drop)]
pub(crate) struct Refusing<'n> {
    pub(crate) mixing: Mixing<'n>,
    pub(crate) at: usize,
}

impl Analyse<u64> for Refusing<'_> {
    ghost use Rattle.pool_tests.specs.Examples.{mixed};
    ghost use Rattle.std.specs.Prelude.{length, slice_index};

    ghost nodes = { λ r. length r.mixing.names.now };

    ghost step = { λ r n us. mixed (slice_index r.mixing.names.now n) us };

    ghost fits = { λ r n us. Unit {0} };

    ghost cycle = { λ r. 999999999 };

    fn cyclic(&self, alloc: Global) -> Result<u64, NoMemory> {
        self.mixing.cyclic(alloc)
    }

    fn analyse_one(&self, alloc: Global, n: NodeId, values: &[&u64]) -> Result<u64, NoMemory> {
        if n.number() == self.at {
            return Err(NoMemory);
        }
        self.mixing.analyse_one(alloc, n, values)
    }
}

/// A text, seen as its bytes.
#[derive(Drop)]
pub(crate) struct Text {
    bytes: Vec<u8>,
}

impl Model for Text {
    ghost use Rattle.std.specs.Prelude.{ℕ, List};

    ghost Value = { List ℕ };

    ghost view = { λ t. t.bytes.items };
}

impl Text {
    /// Its bytes.
    pub(crate) fn as_bytes(&self) -> &[u8]
        ensures { result.now ≡ self.now }
    {
        self.bytes.as_slice()
    }
}

/// The outcome of a node is the outcomes of its dependencies, in brackets.
#[derive(Drop)]
pub(crate) struct Nesting {
    pub(crate) nodes: usize,
}

impl Analyse<Text> for Nesting {
    ghost use Rattle.pool_tests.specs.Examples.{bracketed};
    ghost use Rattle.std.specs.Prelude.{[]};

    ghost nodes = { λ m. m.nodes };

    ghost step = { λ m n us. bracketed us };

    ghost fits = { λ m n us. Unit {0} };

    ghost cycle = { λ m. [] };

    fn cyclic(&self, alloc: Global) -> Result<Text, NoMemory> {
        Ok(Text {
            bytes: Vec::new(alloc),
        })
    }

    fn analyse_one(&self, alloc: Global, _n: NodeId, values: &[&Text]) -> Result<Text, NoMemory> {
        match bracket(alloc, values) {
            Ok(bytes) => Ok(Text { bytes }),
            Err(_) => Err(NoMemory),
        }
    }
}

/// The texts, one after the other, in brackets.
fn bracket(alloc: Global, values: &[&Text]) -> Result<Vec<u8>, AllocError>
    ensures { IfOk result (λ v. v.items ≡ bracketed (map (λ r. r.now) values.now)) }
{
    let mut bytes = Vec::new(alloc);
    bytes.push(b'[')?;
    for i in 0..values.len() {
        bytes.extend_from_slice(values[i].as_bytes())?;
    }
    bytes.push(b']')?;
    Ok(bytes)
}
