//! Whether and where bytes stand in a text: of the language's texts, and of any `str`.
ghost use Rattle.std.specs.Prelude.{◌≡◌};
ghost use Rattle.strings.specs.Affixes.{begins, ends};
ghost use Rattle.strings.specs.Parts.{is_part, first_place};

use crate::text::AsciiText;

impl AsciiText {
    /// The first place at which these bytes stand.
    pub fn find(&self, part: &AsciiText) -> Option<usize>
        ensures { result ≡ first_place part.now self.now }
    {
        place_in(self.as_str(), part.as_str())
    }

    /// Whether these bytes stand in the text: `part in text`.
    pub fn contains(&self, part: &AsciiText) -> bool
        ensures { result ≡ is_part part.now self.now }
    {
        is_within(self.as_str(), part.as_str())
    }

    /// Whether it begins with these bytes.
    pub fn starts_with(&self, front: &AsciiText) -> bool
        ensures { result ≡ begins front.now self.now }
    {
        has_front(self.as_str(), front.as_str())
    }

    /// Whether it ends with these bytes.
    pub fn ends_with(&self, back: &AsciiText) -> bool
        ensures { result ≡ ends back.now self.now }
    {
        has_back(self.as_str().as_bytes(), back.as_str().as_bytes())
    }
}

/// The first place at which these bytes stand in a text.
pub fn place_in(text: &str, part: &str) -> Option<usize>
    ensures { result ≡ first_place part.now text.now }
{
    text.find(part)
}

/// Whether these bytes stand in a text.
pub fn is_within(text: &str, part: &str) -> bool
    ensures { result ≡ is_part part.now text.now }
{
    text.contains(part)
}

/// Whether a text begins with these bytes.
pub fn has_front(text: &str, front: &str) -> bool
    ensures { result ≡ begins front.now text.now }
{
    text.starts_with(front)
}

/// Whether bytes end with these.
pub fn has_back(text: &[u8], back: &[u8]) -> bool
    ensures { result ≡ ends back.now text.now }
{
    let from = text.len().saturating_sub(back.len());
    &text[from..] == back
}
