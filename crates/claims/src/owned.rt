//! Actions where they lie, with the labels of their owners.
ghost use Rattle.std.specs.Prelude.{◌≡◌};

use actions::Action;
use plain::Text;
use std::marker::Model;

/// An action, where it lies, and the label of the target that registered it.
#[derive(Drop)]
pub struct Owned<'a> {
    label: Text,
    action: &'a Action,
}

impl<'a> Model for Owned<'a> {
    ghost use Rattle.claims.specs.Owned.{Owned as Registered};

    ghost Value = { Registered };

    ghost use Rattle.claims.specs.Codes.{owned_code};

    ghost coded = { owned_code };

    ghost view = { λ o. record { label = o.label; action = o.action.now } };
}

impl<'a> Owned<'a> {
    /// This action, which the target of the label registered.
    pub fn new(label: Text, action: &'a Action) -> Owned<'a>
        ensures { result ≡ record { label = label; action = action.now } }
    {
        Owned { label, action }
    }

    /// The label of its owner.
    pub fn label(&self) -> &Text
        ensures { result.now ≡ self.now.label }
    {
        &self.label
    }

    /// The action.
    pub fn action(&self) -> &'a Action
        ensures { result.now ≡ self.now.action }
    {
        self.action
    }
}
