//! Tests of crate `pool`. They are a crate of their own, so that `pool` is proved once.
#![tactic(auto)]

#[cfg(test)]
mod analysers;
#[cfg(test)]
mod pair;
#[cfg(test)]
mod passing_on;
#[cfg(test)]
mod random;
#[cfg(test)]
mod runs;
#[cfg(test)]
mod texts;
