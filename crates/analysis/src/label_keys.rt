//! Labels as keys by which they are looked up.
ghost use Rattle.std.specs.Prelude.{◌≡◌};
ghost use Rattle.analysis.specs.Keyed.{text_digest, IsKeyOf};

use workspace::Label;

/// A label by which it is looked up: a digest of its text, its name and its package. Keys are
/// compared in this order, so texts are compared only where digests are equal. Who chooses the
/// labels can make digests equal; then the order of texts decides. So a look-up takes no more
/// comparisons than by texts alone, and one pass over the text more, for the digest.
pub type LabelKey<'a> = (u64, &'a str, &'a str);

/// The key of a label.
pub fn label_key(label: &Label) -> LabelKey<'_>
    ensures { IsKeyOf result label.now }
{
    (text_digest(label.text()), label.name(), label.package())
}

/// A digest of a text: 31 times that of what stands before a byte, and the byte, modulo 2^64.
fn text_digest(text: &str) -> u64
    ensures { result ≡ text_digest text.now }
{
    let mut found = 0u64;
    for byte in text.as_bytes() {
        found = found.wrapping_mul(31).wrapping_add(u64::from(*byte));
    }
    found
}
