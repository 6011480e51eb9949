//! Tests of crate `board`. They are a crate of their own, so that `board` is proved once.
#![tactic(auto)]

#[cfg(test)]
mod example;
#[cfg(test)]
mod graph;
#[cfg(test)]
mod lists;
#[cfg(test)]
mod threads;
#[cfg(test)]
mod two_threads;
#[cfg(test)]
mod worker;
