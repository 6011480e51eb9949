//! Where the bytes of a text lie.
ghost use Rattle.std.specs.Prelude.{◌≡◌, string_bytes, IfOk};
ghost use Rattle.plain.specs.TextBytes.{bytes_of};

use arrayvec::ArrayString;
use std::alloc::{AllocError, Global};

/// The bytes of a text.
pub(crate) enum TextBytes {
    /// At most 32, in place.
    Short(ArrayString<32>),
    /// More, in memory of their own.
    Long(String),
}

// By hand, so that letting one go is a call and isn't written out wherever one may be let go.
impl Drop for TextBytes {
    fn drop(self) {
        match self {
            TextBytes::Short(_) => {}
            TextBytes::Long(_) => {}
        }
    }
}

impl TextBytes {
    /// A copy of these.
    pub(crate) fn new(alloc: Global, s: &str) -> Result<TextBytes, AllocError>
        ensures { IfOk result (λ b. bytes_of b ≡ s.now) }
    {
        match ArrayString::from(s) {
            Ok(short) => Ok(TextBytes::Short(short)),
            Err(_) => Ok(TextBytes::Long(String::from_str(alloc, s)?)),
        }
    }

    /// Those of a `String`, which is kept where they are more than 32.
    pub(crate) fn from_string(s: String) -> TextBytes
        ensures { bytes_of result ≡ string_bytes s }
    {
        match ArrayString::from(s.as_str()) {
            Ok(short) => TextBytes::Short(short),
            Err(_) => TextBytes::Long(s),
        }
    }

    /// As a `str`.
    #[inline(always)]
    pub(crate) fn as_str(&self) -> &str
        ensures { result.now ≡ bytes_of self.now }
    {
        match self {
            TextBytes::Short(text) => text.as_str(),
            TextBytes::Long(text) => text.as_str(),
        }
    }
}
