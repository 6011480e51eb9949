//! Tests of the crates that read an input and pack one: `workspace`, `devices`, `request`,
//! `packing` and `pack_host`. They are a crate of their own, so that these are proved once.
#![tactic(auto)]

#[cfg(test)]
mod endings;
#[cfg(test)]
mod hosts;
#[cfg(test)]
mod inputs;
#[cfg(test)]
mod labels;
#[cfg(test)]
mod pack_words;
#[cfg(test)]
mod packs;
#[cfg(test)]
mod singles;
#[cfg(test)]
mod streams;
#[cfg(test)]
mod trees;
#[cfg(test)]
mod words;
#[cfg(test)]
mod workspaces;
