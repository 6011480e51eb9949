//! Source files.
ghost use Rattle.std.specs.Prelude.{◌≡◌, IfOk};
ghost use Rattle.workspace.specs.Labels.{label_path, label_text};

use depsets::FileRef;
use plain::Shared;
use std::alloc::{AllocError, Global};
use workspace::Label;

/// The File at the path of a label, which the label owns and whose text it shares.
pub(crate) fn source_file(alloc: Global, label: &Label) -> Result<Shared<FileRef>, AllocError>
    ensures { IfOk result (λ f. f ≡ record {
      path = label_path label.now;
      owner = label_text label.now;
    }) }
{
    let path = label.path(alloc)?;
    let owner = label.shared_text().share()?;
    Shared::new(alloc, FileRef::new(path, owner))
}
