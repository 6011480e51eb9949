//! The calls of `attr.string` and its kin, of `provider` and of `rule`, which declare while a
//! module is evaluated.
//!
//! `specs/` has one definition a call, of what it declares or refuses: `AttributeCalls`,
//! `ProviderCalls` and `RuleMaking`. [`new_attribute`], [`new_provider`] and [`new_rule`] do so,
//! for every state of the evaluation, which they only read. What a module has declared stands in
//! its [`targets::Declarations`], by numbers; the values of the language that name it have these numbers.
//! After an error the module has declared what it had. What other modules declared is
//! [`Attributes`].
#![tactic(auto)]

mod attribute_calls;
mod attributes_of_rules;
mod defaults;
mod fields;
mod known;
mod lists;
mod names;
mod provider_calls;
mod restrictions;
mod rule_making;

pub use attribute_calls::new_attribute;
pub use known::Attributes;
pub use provider_calls::new_provider;
pub use rule_making::new_rule;
