//! Rules, their attributes, the targets that `BUILD` files declare, and what becomes of a label.
//!
//! The definitions stand in `specs/`, one subject a file: `Attributes` says what an attribute is
//! and what a target has for it, `TextLists` and `TextDicts` what a list and a dict of strings are,
//! `Choosing` what a table of an attribute's values finds, `RuleCalls` what the call of a rule
//! declares or refuses, `Resolving` what a label names and what it depends on, `Checks` which
//! dependencies an attribute takes, `Sources` what a source file offers, and `Steps` the outcome of
//! a label from the outcomes of its dependencies, over any meaning of implementations. [`laws`]
//! says what follows from them. The types here are what these definitions speak of.
#![tactic(auto)]

mod attributes;
mod choices;
mod declarations;
mod defaults;
pub mod laws;
mod outcome;
mod rule_attributes;
mod sequence;
mod source_file;
mod target;
mod text_dict;
mod text_list;

pub use attributes::{AllowFiles, Attribute, AttributeValue, NamedAttribute, Rule, is_private};
pub use choices::Choices;
pub use declarations::Declarations;
pub use outcome::{Actions, Outcome, Providers, TargetFault};
pub use rule_attributes::RuleAttributes;
pub use sequence::Sequence;
pub use source_file::{SourceFile, info_with};
pub use target::Target;
pub use text_dict::TextDict;
pub use text_list::TextList;
