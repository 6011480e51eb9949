//! What runs.

use arena::Arena;
use call_stack::Linked;
use evaluation::TopNames;
use operations::DefaultInfo;
use plain::{Shared, Text};
use std::alloc::Global;
use values::Depset;

/// What a run stands in.
#[derive(Drop)]
pub struct Setting<'a, L, P> {
    /// Where memory comes from.
    pub alloc: Global,
    /// What is known of the linked files.
    pub linked: &'a L,
    /// The place of the run: what it adds to the language, as calls that declare targets.
    pub place: &'a P,
    /// The provider `DefaultInfo`.
    pub default_info: &'a DefaultInfo,
    /// Keeps the depsets that the run lists and that aren't lent to it.
    pub kept: &'a Arena<Depset>,
    /// The codes of all files, by number.
    pub codes: &'a Linked,
    /// Their paths, by number.
    pub paths: &'a [Text],
    /// How many ticks a run has.
    pub limit: u64,
}

/// A file whose top level is run.
#[derive(Drop)]
pub struct TopFile<'a> {
    /// Its path, which owns what the run makes.
    pub path: &'a Text,
    /// Its place among the files, from 0.
    pub number: u32,
    /// The names that its top level binds.
    pub names: &'a Shared<TopNames>,
    /// How many functions it has; its top level is one of them.
    pub functions: usize,
}
