//! The modules that the load statements of a file name.
ghost use Rattle.std.specs.Prelude.{◌≡◌, ◌++◌, map, IfOk, OnOk};
ghost use Rattle.std.specs.Option.{option_to_list};
ghost use Rattle.loading.specs.Loads.{of_module};
ghost use Rattle.loading.specs.Modules.{targets};
ghost use Rattle.load_graph.specs.Paths.{listed, AreNumbers};

use crate::paths::Paths;
use edges::NodeId;
use loading::LoadStatement;
use std::alloc::{AllocError, Global};

/// Puts a module behind the others of a row, if there is one.
fn push(row: &mut Vec<NodeId>, named: Option<NodeId>) -> Result<(), AllocError>
    ensures { OnOk result (row.new.items ≡ row.old.items ++ option_to_list named) }
{
    if let Some(n) = named {
        row.push(n)?;
    }
    Ok(())
}

/// The modules that load statements name, by number, in order. A label of anything else finds none.
///
/// # Errors
///
/// `AllocError` where memory was refused.
pub fn row_of(
    alloc: Global,
    paths: &Paths,
    loads: &[LoadStatement],
) -> Result<Vec<NodeId>, AllocError>
    ensures { let named = targets (map (of_module (listed paths.now)) loads.now) in
        IfOk result (λ v. AreNumbers paths.now named v.items) }
{
    let mut row = Vec::new(alloc);
    for load in loads {
        push(&mut row, paths.loaded(load))?;
    }
    Ok(row)
}
