//! Whether what a call of a rule gives fits the rule's attributes.
ghost use Rattle.std.specs.Prelude.{◌≡◌};
ghost use Rattle.std.specs.List.{list_any, list_all};
ghost use Rattle.targets.specs.RuleCalls.{may_name, is_missed, fits};

use plain::Text;
use rule_arguments::ByName;
use targets::{NamedAttribute, Rule, RuleAttributes, is_private};

/// Whether there is no position, each name is one that a call may give, and `name` and each
/// mandatory attribute are given.
pub(crate) fn fits(rule: &Rule, arguments: &ByName<'_, '_>) -> bool
    ensures { result ≡ fits rule.now arguments.now }
{
    if arguments.position_count() != 0 {
        return false;
    }
    if !may_name_all(&rule.attributes, arguments.names()) {
        return false;
    }
    if arguments.given_as("name").is_none() {
        return false;
    }
    !misses_any(rule.attributes.as_slice(), arguments)
}

/// Whether a call may give each of these names.
fn may_name_all(attributes: &RuleAttributes, names: &[Text]) -> bool
    ensures { result ≡ list_all (may_name attributes.now) names.now }
{
    for name in names {
        if !may_name(attributes, name) {
            return false;
        }
    }
    true
}

/// Whether a call may give a name: `name`, or an attribute's that isn't private.
fn may_name(attributes: &RuleAttributes, name: &Text) -> bool
    ensures { result ≡ may_name attributes.now name.now }
{
    if name.as_str() == "name" {
        return true;
    }
    if is_private(name.as_str()) {
        return false;
    }
    attributes.has(name)
}

/// Whether a mandatory attribute isn't given.
fn misses_any(attributes: &[NamedAttribute], arguments: &ByName<'_, '_>) -> bool
    ensures { result ≡ list_any (is_missed arguments.now) attributes.now }
{
    for attribute in attributes {
        if is_missed(attribute, arguments) {
            return true;
        }
    }
    false
}

/// Whether an attribute is mandatory and isn't given.
fn is_missed(attribute: &NamedAttribute, arguments: &ByName<'_, '_>) -> bool
    ensures { result ≡ is_missed arguments.now attribute.now }
{
    if !attribute.attribute.get().mandatory {
        return false;
    }
    arguments.given_as(attribute.name.as_str()).is_none()
}
