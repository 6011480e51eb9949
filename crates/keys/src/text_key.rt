//! Texts that are kept as keys, so that they are lent as values.
ghost use Rattle.std.specs.Prelude.{◌≡◌};

use crate::Key;
use plain::Text;
use std::hash::{Hash, Hasher};
use std::marker::Model;

/// A text, as the key that it is: so it is lent wherever it is read as a value, and no count is
/// touched.
///
/// To a contract it is the text. It is equal to another and hashed by its bytes.
#[derive(Drop)]
pub struct TextKey {
    key: Key,
}

impl Model for TextKey {
    ghost use Rattle.std.specs.Prelude.{ℕ, List, ◌≡◌};
    ghost use Rattle.keys.specs.declared.key.Key.{Key as Index};
    ghost use Rattle.keys.specs.Texts.{key_text};

    ghost Value = { List ℕ };

    ghost view = { λ k. key_text k.key };

    ghost invariant = { λ k. k.key ≡ Index.Text (key_text k.key) };
}

impl TextKey {
    /// The key of a text.
    pub fn new(text: Text) -> TextKey
        ensures { result ≡ text }
    {
        TextKey {
            key: Key::Text(text),
        }
    }

    /// It, as a key.
    #[inline(always)]
    pub fn key(&self) -> &Key
        ensures { result.now ≡ Key.Text self.now }
    {
        &self.key
    }

    /// Its text.
    #[inline(always)]
    pub fn text(&self) -> &Text
        ensures { result.now ≡ self.now }
    {
        match &self.key {
            Key::Text(text) => text,
            _ => unreachable!(),
        }
    }

    /// Its bytes, as a `str`.
    pub fn as_str(&self) -> &str
        ensures { result.now ≡ self.now }
    {
        self.text().as_str()
    }
}

impl PartialEq for TextKey {
    ghost use Rattle.std.specs.Str.{bytes_eq};
    ghost use Rattle.std.specs.Cmp.{partial_equiv_from_equiv};
    ghost use Rattle.std.specs.Cmp.Lexicographic.{nat_list_eq_equiv};

    ghost eq = { bytes_eq };

    ghost laws = { partial_equiv_from_equiv nat_list_eq_equiv };

    fn eq(&self, other: &TextKey) -> bool {
        self.as_str() == other.as_str()
    }
}

impl Eq for TextKey {
    ghost use Rattle.std.specs.Cmp.Lexicographic.{nat_list_eq_equiv};

    ghost laws = { nat_list_eq_equiv };
}

impl Hash for TextKey {
    ghost use Rattle.std.specs.Hash as fed;
    ghost use Rattle.std.specs.Cmp.Rules.{hashing};
    ghost use Rattle.std.proofs.Common.{rules};

    ghost hash_input = { fed.str };

    ghost respects_eq = { Prim.search (hashing, rules) };

    fn hash<H: Hasher>(&self, state: &mut H) {
        self.as_str().hash(state);
    }
}
