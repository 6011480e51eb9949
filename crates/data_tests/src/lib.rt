//! Tests of the crates that hold texts, values and lists of them: `plain`, `arena`, `strings`,
//! `first_places`, `depsets`, `values`, `operands`, `making`, `printing`, `claims` and `graph`; and
//! of what crosses threads. They are a crate of their own, so that these are proved once.
//!
//! What operations on strings and numbers give, changes, equality, freezing, depsets and texts with
//! their ticks and depths, how a report tells conflicts and shared actions, and what is reached from
//! labels in which order, are shown by the stored runs of `serve_check` and `module_check`.
#![tactic(auto)]

#[cfg(test)]
mod arenas;
#[cfg(test)]
mod conflicts;
#[cfg(test)]
mod crossing;
#[cfg(test)]
mod deep_depsets;
#[cfg(test)]
mod graph_limit;
#[cfg(test)]
mod lent;
#[cfg(test)]
mod lent_elements;
#[cfg(test)]
mod levels;
#[cfg(test)]
mod listings;
#[cfg(test)]
mod made_depsets;
#[cfg(test)]
mod many_names;
#[cfg(test)]
mod names;
#[cfg(test)]
mod text_limits;
#[cfg(test)]
mod texts_and_stacks;
#[cfg(test)]
mod threads;
