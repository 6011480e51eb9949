//! The type of the language's texts.
ghost use Rattle.std.specs.Prelude.{◌≡◌, ◌≤◌, ◌↔◌, [], true, length, string_bytes, IfOk, IsTrue};
ghost use Rattle.std.specs.Prelude.{Some, None, if◌then◌else◌};
ghost use Rattle.strings.specs.Texts.{MOST_BYTES as most, is_text};

use plain::Text;
use std::alloc::AllocError;
use std::cmp::Ordering;
use std::hash::{Hash, Hasher};
use std::marker::Model;

/// How many bytes a text has at most.
pub const MOST_BYTES: usize = 1_048_576;

/// A text of the language: bytes below 128, no more of them than the limit, behind one count that
/// its names share.
///
/// To a contract it is the list of its bytes. It is equal to another, hashed and ordered by its
/// bytes.
#[derive(Drop)]
pub struct AsciiText {
    text: Text,
}

impl Model for AsciiText {
    ghost use Rattle.std.specs.Prelude.{◌≡◌, ℕ, List, true};
    ghost use Rattle.strings.specs.Texts.{is_text};

    ghost Value = { List ℕ };

    ghost view = { λ t. t.text };

    ghost invariant = { λ t. is_text t.text ≡ true };
}

impl AsciiText {
    /// The text, if it is one of the language: one walk over its bytes tells.
    pub fn from_text(text: Text) -> Option<AsciiText>
        ensures { result ≡ (if is_text text then Some text else None) }
    {
        if is_of_the_language(text.as_str()) {
            Some(AsciiText { text })
        } else {
            None
        }
    }

    /// A text that is known to be one of the language, as that of a literal is.
    pub fn from_ascii(text: Text) -> AsciiText
        requires { is_text text ≡ true }
        ensures { result ≡ text }
    {
        AsciiText { text }
    }

    /// The text of a `String` that is known to be one of the language.
    pub(crate) fn from_string(text: String) -> Result<AsciiText, AllocError>
        requires { is_text (string_bytes text) ≡ true }
        ensures { IfOk result (λ t. t ≡ string_bytes text) }
    {
        let text = Text::from_string(text)?;
        Ok(AsciiText { text })
    }

    /// The same as a text of any bytes.
    pub fn as_text(&self) -> &Text
        ensures value { result.now ≡ self.now }
        ensures is_text { is_text self.now ≡ true }
    {
        &self.text
    }

    /// The same as a text of any bytes, without a copy.
    pub fn into_text(self) -> Text
        ensures { result ≡ self }
    {
        self.text
    }

    /// Its bytes, as a `str`.
    pub fn as_str(&self) -> &str
        ensures value { result.now ≡ self.now }
        ensures is_text { is_text self.now ≡ true }
    {
        self.text.as_str()
    }

    /// How many bytes it has.
    pub fn len(&self) -> usize
        ensures value { result ≡ length self.now }
        ensures limit { result ≤ most }
    {
        self.text.len()
    }

    /// Whether it has no byte.
    pub fn is_empty(&self) -> bool
        ensures { IsTrue result ↔ (self.now ≡ []) }
    {
        self.text.is_empty()
    }

    /// Another name of the same text: one count more, and no copy.
    ///
    /// # Errors
    ///
    /// `AllocError` where the count of its names is at its greatest.
    pub fn share(&self) -> Result<AsciiText, AllocError>
        ensures { IfOk result (λ t. t ≡ self.now) }
    {
        let text = self.text.share()?;
        Ok(AsciiText { text })
    }
}

/// Whether these bytes are a text of the language.
fn is_of_the_language(text: &str) -> bool
    ensures { result ≡ is_text text.now }
{
    if text.len() > MOST_BYTES {
        return false;
    }
    text.is_ascii()
}

impl PartialEq for AsciiText {
    ghost use Rattle.std.specs.Str.{bytes_eq};
    ghost use Rattle.std.specs.Cmp.{partial_equiv_from_equiv};
    ghost use Rattle.std.specs.Cmp.Lexicographic.{nat_list_eq_equiv};

    ghost eq = { bytes_eq };

    ghost laws = { partial_equiv_from_equiv nat_list_eq_equiv };

    fn eq(&self, other: &AsciiText) -> bool {
        self.as_str() == other.as_str()
    }
}

impl Eq for AsciiText {
    ghost use Rattle.std.specs.Cmp.Lexicographic.{nat_list_eq_equiv};

    ghost laws = { nat_list_eq_equiv };
}

impl PartialOrd for AsciiText {
    ghost use Rattle.std.specs.Ordering.{nat_cmp};
    ghost use Rattle.std.specs.Cmp.Lexicographic.{slice_cmp, texts_po};

    ghost partial_cmp = { λ x y. Some (slice_cmp nat_cmp x y) };

    ghost laws = { texts_po };

    fn partial_cmp(&self, other: &AsciiText) -> Option<Ordering> {
        Some(self.cmp(other))
    }
}

impl Ord for AsciiText {
    ghost use Rattle.std.specs.Prelude.{refl};
    ghost use Rattle.std.specs.Ordering.{nat_cmp};
    ghost use Rattle.std.specs.Cmp.Lexicographic.{slice_cmp, nat_list_cmp_total, texts_ties};

    ghost cmp = { slice_cmp nat_cmp };

    ghost total = { nat_list_cmp_total };

    ghost matches_partial_cmp = { λ x y. refl };

    ghost matches_eq = { texts_ties };

    fn cmp(&self, other: &AsciiText) -> Ordering {
        self.as_str().cmp(other.as_str())
    }
}

impl Hash for AsciiText {
    ghost use Rattle.std.specs.Hash as fed;
    ghost use Rattle.std.specs.Cmp.Rules.{hashing};
    ghost use Rattle.std.proofs.Common.{rules};

    ghost hash_input = { fed.str };

    ghost respects_eq = { Prim.search (hashing, rules) };

    fn hash<H: Hasher>(&self, state: &mut H) {
        self.as_str().hash(state);
    }
}
