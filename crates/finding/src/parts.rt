//! Parts of labels and of paths.
ghost use Rattle.std.specs.Prelude.{◌≡◌, [], drop, Ok, Err, IfOk};
ghost use Rattle.operations.specs.States.{Gives};
ghost use Rattle.operations.specs.Fields.{before_colon, after_colon, last_part};

use plain::Text;
use std::alloc::{AllocError, Global};
use values::Broken;

/// The package of a label: what stands between its two slashes and its colon.
pub(crate) fn package(alloc: Global, label: &Text) -> Result<Text, Broken>
    ensures { Gives (Ok (before_colon (drop 2 label.now))) result }
{
    let Some(rest) = label.as_str().strip_prefix("//") else {
        return Err(Broken::NoMemory);
    };
    let text = Text::new(alloc, before_colon(rest))?;
    Ok(text)
}

/// What stands before the first colon.
fn before_colon(text: &str) -> &str
    ensures { result.now ≡ before_colon text.now }
{
    match text.split_once(':') {
        Some((before, _)) => before,
        None => text,
    }
}

/// The name of a label: what stands behind its first colon.
pub(crate) fn name(alloc: Global, label: &Text) -> Result<Text, AllocError>
    ensures { IfOk result (λ t. t ≡ after_colon label.now) }
{
    Text::new(alloc, after_colon(label.as_str()))
}

/// What stands behind the first colon.
fn after_colon(text: &str) -> &str
    ensures { result.now ≡ after_colon text.now }
{
    match text.split_once(':') {
        Some((_, after)) => after,
        None => "",
    }
}

/// The last segment of a path, as a new text.
pub(crate) fn basename(alloc: Global, path: &Text) -> Result<Text, AllocError>
    ensures { IfOk result (λ t. t ≡ last_part [] path.now) }
{
    Text::new(alloc, last_part(path.as_str()))
}

/// What stands behind the last slash.
fn last_part(path: &str) -> &str
    ensures { result.now ≡ last_part [] path.now }
{
    match path.rsplit_once('/') {
        Some((_, last)) => last,
        None => path,
    }
}
