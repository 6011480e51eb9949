//! Tests of crates `edges`, `components` and `parallel`. They are a crate of their own, so that
//! these are proved once.
#![tactic(auto)]

#[cfg(test)]
mod component_graphs;
#[cfg(test)]
mod large;
#[cfg(test)]
mod large_components;
#[cfg(test)]
mod places;
#[cfg(test)]
mod random;
#[cfg(test)]
mod worked;
#[cfg(test)]
mod worked_components;
