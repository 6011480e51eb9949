//! What of actions is compared.
ghost use Rattle.std.specs.Prelude.{◌≡◌, IfOk, map};
ghost use Rattle.std.specs.List.{flat_map};
ghost use Rattle.depsets.specs.Listed.{walked};
ghost use Rattle.claims.specs.Same.{compared, element_paths, input_paths, path_of};
ghost use Rattle.claims.specs.Seen.{parts_of};

use actions::{Action, Inputs};
use depsets::{Element, Elements, FileRef};
use plain::{Shared, Text};
use std::alloc::{AllocError, Global};

/// The parts of an action by which it is equal to another.
#[derive(PartialEq, Eq, Hash, Drop)]
pub(crate) struct Comparable {
    pub mnemonic: Text,
    pub outputs: Vec<Text>,
    pub inputs: Vec<Text>,
    pub words: Vec<Text>,
    pub content: Option<Text>,
}

/// What is compared of an action: a depset of inputs by its listing.
pub(crate) fn parts(alloc: Global, action: &Action) -> Result<Comparable, AllocError>
    ensures { IfOk result (λ c. parts_of c ≡ compared walked action.now) }
{
    let mnemonic = action.mnemonic.share()?;
    let outputs = file_paths(alloc, action.outputs.as_slice())?;
    let inputs = input_paths(alloc, &action.inputs)?;
    let words = shares(alloc, action.words.as_slice())?;
    let content = content_share(&action.content)?;
    Ok(Comparable {
        mnemonic,
        outputs,
        inputs,
        words,
        content,
    })
}

/// The paths of inputs.
fn input_paths(alloc: Global, inputs: &Inputs) -> Result<Vec<Text>, AllocError>
    ensures { IfOk result (λ v. v.items ≡ input_paths walked inputs.now) }
{
    match inputs {
        Inputs::Files(files) => file_paths(alloc, files.as_slice()),
        Inputs::Depset(depset) => {
            let listing = depset.list_whole(alloc)?;
            element_paths(alloc, &listing.items)
        }
    }
}

/// The paths of Files.
fn file_paths(alloc: Global, files: &[Shared<FileRef>]) -> Result<Vec<Text>, AllocError>
    ensures { IfOk result (λ v. v.items ≡ map path_of files.now) }
{
    let mut paths = Vec::new(alloc);
    for file in files {
        paths.push(file.get().path.text().share()?)?;
    }
    Ok(paths)
}

/// The paths of the Files among elements.
fn element_paths(alloc: Global, elements: &Elements<'_>) -> Result<Vec<Text>, AllocError>
    ensures { IfOk result (λ v. v.items ≡ flat_map element_paths elements.now) }
{
    let mut paths = Vec::new(alloc);
    for element in elements {
        if let Element::File(file) = element {
            paths.push(file.get().path.text().share()?)?;
        }
    }
    Ok(paths)
}

/// Second names of texts.
fn shares(alloc: Global, texts: &[Text]) -> Result<Vec<Text>, AllocError>
    ensures { IfOk result (λ v. v.items ≡ texts.now) }
{
    let mut shares = Vec::new(alloc);
    for text in texts {
        shares.push(text.share()?)?;
    }
    Ok(shares)
}

/// A second name of a text, if there is one.
fn content_share(content: &Option<Text>) -> Result<Option<Text>, AllocError>
    ensures { IfOk result (λ c. c ≡ content.now) }
{
    match content {
        Some(text) => Ok(Some(text.share()?)),
        None => Ok(None),
    }
}
