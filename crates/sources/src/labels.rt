//! The paths that load statements name.
ghost use Rattle.std.specs.Prelude.{◌≡◌, IfOk, nat_eq};
ghost use Rattle.std.specs.List.{list_any, starts_with};
ghost use Rattle.workspace.specs.Labels.{is_colon};
ghost use Rattle.evaluation.specs.Worlds.{is_load_text, load_path};

use plain::Text;
use std::alloc::{AllocError, Global};
use workspace::{Label, LabelRefused, package_of};

/// Whether a text has a colon.
fn has_colon(text: &str) -> bool
    ensures { result ≡ list_any is_colon text.now }
{
    text.bytes().any(|b| b == b':')
}

/// Whether a text begins with these bytes.
fn begins(text: &str, front: &str) -> bool
    ensures { result ≡ starts_with nat_eq text.now front.now }
{
    text.starts_with(front)
}

/// Whether a text has the form of a label that names a file.
fn is_load_text(text: &str) -> bool
    ensures { result ≡ is_load_text text.now }
{
    (begins(text, "//") || begins(text, ":")) && has_colon(text)
}

/// The path that the text of a load names, in a file of this path, if it names one.
///
/// # Errors
///
/// `AllocError` where memory was refused.
pub fn load_path(alloc: Global, path: &str, text: &str) -> Result<Option<Text>, AllocError>
    ensures { IfOk result (λ p. p ≡ load_path path.now text.now) }
{
    if !is_load_text(text) {
        return Ok(None);
    }
    match Label::read(alloc, text, Some(package_of(path))) {
        Ok(label) => Ok(Some(label.path(alloc)?)),
        Err(LabelRefused::Illegal) => Ok(None),
        Err(LabelRefused::NoMemory) => Err(AllocError),
    }
}
