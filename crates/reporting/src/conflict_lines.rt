//! The lines of conflicts.
ghost use Rattle.std.specs.Prelude.{◌≡◌, ◌++◌, string_bytes, OnOk};
ghost use Rattle.std.specs.List.{flat_map};
ghost use Rattle.reporting.specs.Lines.{conflict_line, spaced};

use claims::Conflict;
use plain::Text;
use std::alloc::AllocError;

/// Appends texts, each after a space.
pub(crate) fn put_spaced(out: &mut String, texts: &[Text]) -> Result<(), AllocError>
    ensures { OnOk result (string_bytes out.new
        ≡ string_bytes out.old ++ flat_map spaced texts.now) }
{
    for text in texts {
        out.push_str(" ")?;
        out.push_str(text.as_str())?;
    }
    Ok(())
}

/// Appends the line of a conflict: its path, and the label of each action that declares it.
///
/// # Errors
///
/// `AllocError` where memory was refused. A part of the line may have been appended then.
pub fn put_conflict(out: &mut String, conflict: &Conflict) -> Result<(), AllocError>
    ensures { OnOk result
        (string_bytes out.new ≡ string_bytes out.old ++ conflict_line conflict.now) }
{
    out.push_str("conflict ")?;
    out.push_str(conflict.path.as_str())?;
    put_spaced(out, conflict.labels.as_slice())?;
    out.push_str("\n")
}
