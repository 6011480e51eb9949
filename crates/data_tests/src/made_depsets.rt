//! For tests: depsets by their parts.
use depsets::{Depset, Element, Id, Order};
use plain::Text;
use std::alloc::Global;

/// A depset of this number and these parts; None where it is not made.
pub(crate) fn made(
    alloc: Global,
    serial: u64,
    direct: Vec<Element>,
    below: Vec<Depset>,
) -> Option<Depset> {
    match Text::new(alloc, "a/f.bzl") {
        Ok(owner) => Depset::new(alloc, Id { owner, serial }, Order::Default, direct, below).ok(),
        Err(_) => None,
    }
}

/// A depset of this number and one element over these; None where it is not made.
fn over_all(alloc: Global, serial: u64, below: Vec<Depset>) -> Option<Depset> {
    let number = i64::try_from(serial).unwrap_or(0);
    match Vec::from_array(alloc, [Element::Number(number)]) {
        Ok(direct) => made(alloc, serial, direct, below),
        Err(_) => None,
    }
}

/// A depset of this number and one element.
pub(crate) fn one(alloc: Global, serial: u64) -> Option<Depset> {
    over_all(alloc, serial, Vec::new(alloc))
}

/// A depset of this number and one element over another.
pub(crate) fn over(alloc: Global, serial: u64, depset: Depset) -> Option<Depset> {
    match Vec::from_array(alloc, [depset]) {
        Ok(below) => over_all(alloc, serial, below),
        Err(_) => None,
    }
}
