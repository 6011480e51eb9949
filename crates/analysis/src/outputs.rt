//! Declared files and the actions that make them.
ghost use Rattle.std.specs.Prelude.{◌≡◌, IfOk, OnOk, bytes_eq, option_map};
ghost use Rattle.std.specs.List.{list_any};
ghost use Rattle.targets.specs.Steps.{first_unmade, makes};
ghost use Rattle.analysis.specs.Made.{AreMade, HasMore};

use actions::Action;
use depsets::FileRef;
use plain::Shared;
use std::alloc::{AllocError, Global};
use std::collections::BTreeSet;

/// So many declared files, at most, are each looked for among the outputs.
const FEW: usize = 4;

/// The first of the declared files that no action makes.
///
/// Where there are many files, the paths of all outputs are put in order, so who chooses them can't
/// make this slow.
pub(crate) fn first_unmade<'a>(
    alloc: Global,
    actions: &[Action],
    files: &'a [Shared<FileRef>],
) -> Result<Option<&'a Shared<FileRef>>, AllocError>
    ensures { IfOk result (λ f. option_map (λ x. x.now.path) f
        ≡ first_unmade actions.now files.now) }
{
    if files.len() <= FEW {
        return Ok(first_unmade_of_few(actions, files));
    }
    first_unmade_of_many(alloc, actions, files)
}

/// The same, of any number of files, by order.
fn first_unmade_of_many<'a>(
    alloc: Global,
    actions: &[Action],
    files: &'a [Shared<FileRef>],
) -> Result<Option<&'a Shared<FileRef>>, AllocError>
    ensures { IfOk result (λ f. option_map (λ x. x.now.path) f
        ≡ first_unmade actions.now files.now) }
{
    let made = outputs(alloc, actions)?;
    for file in files {
        if !made.contains(file.get().path.as_str()) {
            return Ok(Some(file));
        }
    }
    Ok(None)
}

/// The first of a few declared files that no action makes. The actions are gone through for each.
fn first_unmade_of_few<'a>(
    actions: &[Action],
    files: &'a [Shared<FileRef>],
) -> Option<&'a Shared<FileRef>>
    ensures { option_map (λ x. x.now.path) result ≡ first_unmade actions.now files.now }
{
    for file in files {
        if !is_made(actions, file.get().path.as_str()) {
            return Some(file);
        }
    }
    None
}

/// Whether one of the actions makes the file at a path.
fn is_made(actions: &[Action], path: &str) -> bool
    ensures { result ≡ list_any (makes path.now) actions.now }
{
    actions
        .iter()
        .any(|action| makes(action.outputs.as_slice(), path))
}

/// Whether one of the files is at a path.
fn makes(files: &[Shared<FileRef>], path: &str) -> bool
    ensures { result ≡ list_any (λ f. bytes_eq path.now f.path) files.now }
{
    files.iter().any(|file| path == file.get().path.as_str())
}

/// The paths of all outputs of actions.
fn outputs<'a>(alloc: Global, actions: &'a [Action]) -> Result<BTreeSet<&'a str>, AllocError>
    ensures { IfOk result (λ made. AreMade actions.now made) }
{
    let mut made = BTreeSet::new(alloc);
    for action in actions {
        put_outputs(action.outputs.as_slice(), &mut made)?;
    }
    Ok(made)
}

/// Puts the paths of files.
fn put_outputs<'a>(
    files: &'a [Shared<FileRef>],
    made: &mut BTreeSet<&'a str>,
) -> Result<(), AllocError>
    ensures { OnOk result (HasMore files.now made.old made.new) }
{
    for file in files {
        made.insert(file.get().path.as_str())?;
    }
    Ok(())
}
