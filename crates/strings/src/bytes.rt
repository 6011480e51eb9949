//! The texts of one byte, made once.
ghost use Rattle.std.specs.Prelude.{◌≡◌, ◌<◌, ◌∷◌, [], IfOk};
ghost use Rattle.strings.specs.Indexes.{byte_texts};

use crate::text::AsciiText;
use std::alloc::{AllocError, Global};
use std::marker::Model;

/// The 128 texts of one byte. An evaluation makes them once, so that an item of a text takes no
/// memory.
#[derive(Drop)]
pub struct ByteTexts {
    texts: Vec<AsciiText>,
}

impl Model for ByteTexts {
    ghost use Rattle.std.specs.Prelude.{◌≡◌, ℕ, List};
    ghost use Rattle.strings.specs.Indexes.{byte_texts};

    ghost Value = { List (List ℕ) };

    ghost view = { λ b. b.texts.items };

    ghost invariant = { λ b. b.texts.items ≡ byte_texts 128 };
}

impl ByteTexts {
    /// All of them.
    ///
    /// # Errors
    ///
    /// `AllocError` where memory was refused.
    pub fn new(alloc: Global) -> Result<ByteTexts, AllocError>
        ensures { IfOk result (λ b. b ≡ byte_texts 128) }
    {
        let mut texts = Vec::with_capacity(alloc, 128)?;
        for byte in 0..128_u8 {
            texts.push(byte_text(alloc, byte)?)?;
        }
        Ok(ByteTexts { texts })
    }

    /// The text of a byte.
    pub fn get(&self, byte: u8) -> &AsciiText
        requires { byte < 128 }
        ensures { result.now ≡ byte ∷ [] }
    {
        &self.texts[usize::from(byte)]
    }
}

/// The text of a byte, made.
fn byte_text(alloc: Global, byte: u8) -> Result<AsciiText, AllocError>
    requires { byte < 128 }
    ensures { IfOk result (λ t. t ≡ byte ∷ []) }
{
    let mut text = String::with_capacity(alloc, 1)?;
    text.push(char::from(byte))?;
    AsciiText::from_string(text)
}
