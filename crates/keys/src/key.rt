//! Values that a dict may have as keys: strings, whole numbers and bools. A key is looked up as it
//! lies in a value, and none is made for it.
ghost use Rattle.std.specs.Prelude.{◌≡◌, IfOk};

use plain::Text;
use std::alloc::AllocError;

/// A string, a whole number of 64 bits, signed, or a bool.
#[derive(PartialEq, Eq, Hash)]
pub enum Key {
    /// A string.
    Text(Text),
    /// A whole number of 64 bits, signed.
    Number(i64),
    /// A bool. `True` and `1` are two keys.
    Truth(bool),
}

impl Key {
    /// Another name of the same key.
    ///
    /// # Errors
    ///
    /// `AllocError` where the count of the names of its text is at its greatest.
    #[inline(always)]
    pub fn share(&self) -> Result<Key, AllocError>
        ensures { IfOk result (λ k. k ≡ self.now) }
    {
        match self {
            Key::Text(text) => Ok(Key::Text(text.share()?)),
            Key::Number(number) => Ok(Key::Number(*number)),
            Key::Truth(truth) => Ok(Key::Truth(*truth)),
        }
    }
}

impl Clone for Key {
    ghost is_clone = { λ k l. l ≡ k };

    fn clone(&self) -> Result<Key, AllocError> {
        self.share()
    }
}

impl Drop for Key {
    #[inline(always)]
    fn drop(self) {
        match self {
            Key::Text(_) => {}
            Key::Number(_) => {}
            Key::Truth(_) => {}
        }
    }
}
