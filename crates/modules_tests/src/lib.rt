//! Tests of crate `modules`. They are a crate of their own, so that `modules` is proved once.
#![tactic(auto)]

#[cfg(test)]
mod counted;
#[cfg(test)]
mod fake;
#[cfg(test)]
mod large;
#[cfg(test)]
mod rows;
