//! What is done with a node: so many steps that a compiler can't leave out.
use board::NoMemory;
use pool::{Analyse, NodeId};
use std::alloc::Global;
use std::io;
use std::rt::Clock;
use std::time::Instant;

/// How many steps the clock is set by.
const MANY: u64 = 50_000_000;

/// The outcome of a node is its number and its dependencies' outcomes, added up and then mixed for
/// so many steps. Nothing is promised of it to a proof.
#[derive(Drop)]
pub struct Busy {
    pub nodes: usize,
    pub steps: u64,
}

impl Analyse<u64> for Busy {
    ghost nodes = { λ b. b.nodes };

    ghost step = { λ b n us. 0 };

    ghost fits = { λ b n us. ⊥ };

    ghost cycle = { λ b. 0 };

    fn cyclic(&self, _alloc: Global) -> Result<u64, NoMemory> {
        Ok(0)
    }

    fn analyse_one(&self, _alloc: Global, n: NodeId, values: &[&u64]) -> Result<u64, NoMemory> {
        let mut sum = n.number() as u64;
        for value in values {
            sum = sum.wrapping_add(**value);
        }
        Ok(mixed(sum, self.steps))
    }
}

/// The number after so many steps of a generator of random numbers.
fn mixed(seed: u64, steps: u64) -> u64 {
    let mut x = seed;
    for _ in 0..steps {
        x = x
            .wrapping_mul(6_364_136_223_846_793_005)
            .wrapping_add(1_442_695_040_888_963_407);
    }
    x
}

/// How many steps take so many nanoseconds here.
pub fn steps_in<R: Clock>(rt: &R, nanos: u64) -> io::Result<u64> {
    let start = Instant::now(rt)?;
    let last = mixed(1, MANY);
    let all = start.elapsed(rt)?.as_nanos().max(1);
    // The number is odd or even, and so it is needed.
    let steps = (MANY as u128).saturating_mul(nanos as u128) / all;
    Ok((steps.min(1_000_000) as u64).saturating_add(last % 2))
}
