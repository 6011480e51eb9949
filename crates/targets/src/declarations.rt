//! What a module declares.
ghost use Rattle.std.specs.Prelude.{◌≡◌, []};

use crate::{Attribute, Rule, Sequence};
use plain::Shared;
use std::alloc::Global;

/// What calls of `provider`, `rule` and `attr` declare while a module is evaluated, each by the
/// number in its value.
#[derive(Drop)]
pub struct Declarations {
    /// How many providers. Their fields stand in their values.
    pub providers: u32,
    /// The rules, by number.
    pub rules: Sequence<Shared<Rule>>,
    /// The attributes, by number.
    pub attributes: Sequence<Shared<Attribute>>,
}

impl Declarations {
    /// Nothing yet, which takes no memory.
    pub fn new(alloc: Global) -> Declarations
        ensures { result ≡ record { providers = 0; rules = []; attributes = [] } }
    {
        Declarations {
            providers: 0,
            rules: Sequence::new(alloc),
            attributes: Sequence::new(alloc),
        }
    }
}
