//! Texts made of others: a byte of one, and two behind one another.
ghost use Rattle.std.specs.Prelude.{◌≡◌, true, ◌∷◌, [], ◌<◌, length, slice_index, IfOk};
ghost use Rattle.strings.specs.Answers.{Answers};
ghost use Rattle.strings.specs.Indexes.{item_of};
ghost use Rattle.strings.specs.Texts.{is_text, sum_of};

use crate::bytes::ByteTexts;
use crate::errors::{StringError, StringRefusal};
use crate::text::{AsciiText, MOST_BYTES};
use numbers::place;
use std::alloc::{AllocError, Global};

impl AsciiText {
    /// The byte at an index, from the end where it is negative, as a text of its own: another name
    /// of one of the texts of one byte.
    ///
    /// # Errors
    ///
    /// `Index` outside of the text; `NoMemory` where the count of the byte's names is at its
    /// greatest.
    pub fn item(&self, bytes: &ByteTexts, index: i64) -> Result<AsciiText, StringRefusal>
        ensures { Answers (λ t. t) (item_of self.now index) result }
    {
        let text = self.as_str();
        match place(index, text.len()) {
            Some(place) => Ok(byte_text(bytes, text, place)?),
            None => Err(StringRefusal::String(StringError::Index)),
        }
    }

    /// The other text behind this one.
    ///
    /// # Errors
    ///
    /// `Large` past the limit; `NoMemory` where memory is refused.
    pub fn sum(&self, alloc: Global, other: &AsciiText) -> Result<AsciiText, StringRefusal>
        ensures { Answers (λ t. t) (sum_of self.now other.now) result }
    {
        let (front, back) = (self.as_str(), other.as_str());
        let length = front.len() + back.len();
        if length > MOST_BYTES {
            return Err(StringRefusal::String(StringError::Large));
        }
        let mut text = String::with_capacity(alloc, length)?;
        text.push_str(front)?;
        text.push_str(back)?;
        Ok(AsciiText::from_string(text)?)
    }
}

/// The text of one byte of a text.
fn byte_text(bytes: &ByteTexts, text: &str, place: usize) -> Result<AsciiText, AllocError>
    requires inside { place < length text.now }
    requires ascii { is_text text.now ≡ true }
    ensures { IfOk result (λ t. t ≡ slice_index text.now place ∷ []) }
{
    let byte = text.as_bytes()[place];
    bytes.get(byte).share()
}
