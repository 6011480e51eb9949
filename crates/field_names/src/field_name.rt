//! A name behind a dot.
ghost use Rattle.std.specs.Prelude.{◌≡◌, bytes_eq};
ghost use Rattle.field_names.specs.Names.{text_of};

use crate::known_name::{KnownName, known_as};
use plain::Text;
use std::marker::Model;

/// A name behind a dot: to a contract, its text.
#[derive(Drop)]
pub struct FieldName {
    text: Text,
    known: Option<KnownName>,
}

impl Model for FieldName {
    ghost use Rattle.std.specs.Prelude.{◌≡◌, ℕ, List};
    ghost use Rattle.field_names.specs.Names.{known_as};

    ghost Value = { List ℕ };

    ghost view = { λ n. n.text };

    ghost invariant = { λ n. n.known ≡ known_as n.text };
}

impl FieldName {
    /// The name of a text. Whether it is a known one is found here, once.
    pub fn new(text: Text) -> FieldName
        ensures { result ≡ text }
    {
        let known = known_as(text.as_str());
        FieldName { text, known }
    }

    /// Its text.
    #[inline(always)]
    pub fn text(&self) -> &Text
        ensures { result.now ≡ self.now }
    {
        &self.text
    }

    /// Whether it is this known name: two numbers are compared, and no texts.
    #[inline(always)]
    pub fn is(&self, name: KnownName) -> bool
        ensures { result ≡ bytes_eq self.now (text_of name) }
    {
        self.known == Some(name)
    }
}
