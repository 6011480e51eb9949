//! The targets of `BUILD` files.

use crate::{AttributeValue, Rule, Sequence};
use plain::Shared;
use workspace::Label;

/// A target: its label, its rule, and its values. One that the call of a rule declared has a value
/// for each attribute of its rule, in their order; nothing here asks for that.
#[derive(Drop)]
pub struct Target {
    /// Its label.
    pub label: Shared<Label>,
    /// Its rule.
    pub rule: Shared<Rule>,
    /// What it has for the attributes of its rule, in the order of these.
    pub values: Sequence<AttributeValue>,
}
