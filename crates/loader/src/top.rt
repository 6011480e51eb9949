//! Top levels of files.
ghost use Rattle.std.specs.Prelude.{◌≡◌, [], IfOk};
ghost use Rattle.evaluation.specs.Workspaces.{linked_files};
ghost use Rattle.loader.specs.Tops.{IsTop};

use evaluation::TopNames;
use indexmap::IndexSet;
use plain::{Shared, Text};
use running::TopFile;
use sources::Sources;
use std::alloc::{AllocError, Global};

/// A file whose top level is run, with the names that this binds and how many functions it has.
#[derive(Drop)]
pub(crate) struct Top {
    path: Text,
    number: u32,
    names: Shared<TopNames>,
    functions: usize,
}

/// The names of a top level that binds none.
fn no_names(alloc: Global) -> Result<Shared<TopNames>, AllocError>
    ensures { IfOk result (λ n. n ≡ []) }
{
    Shared::new(alloc, TopNames::of(IndexSet::new(alloc)))
}

/// A file's number as runs have it. One that is too great for them is refused as memory is.
fn file_number(number: usize) -> Result<u32, AllocError>
    ensures { IfOk result (λ n. n ≡ number) }
{
    match u32::try_from(number) {
        Ok(number) => Ok(number),
        Err(_) => Err(AllocError),
    }
}

impl Top {
    /// The top level of the file of a number, which is run at a path. A number that no file has is
    /// that of an empty file.
    ///
    /// # Errors
    ///
    /// `AllocError` where memory was refused, or where the number is greater than 4,294,967,295.
    pub fn of(
        alloc: Global,
        sources: &Sources,
        path: &Text,
        number: usize,
    ) -> Result<Top, AllocError>
        ensures { IfOk result (λ t. IsTop (linked_files sources.now) path.now number t) }
    {
        let own = file_number(number)?;
        let path = path.share()?;
        if number < sources.paths().len() {
            return Ok(Top {
                path,
                number: own,
                names: sources.names(number).share()?,
                functions: sources.functions(number),
            });
        }
        Ok(Top {
            path,
            number: own,
            names: no_names(alloc)?,
            functions: 1,
        })
    }

    /// The same, as a run takes it.
    pub fn file(&self) -> TopFile<'_>
        ensures path { result.path.now ≡ self.now.path }
        ensures number { result.number ≡ self.now.number }
        ensures names { result.names.now ≡ self.now.names }
        ensures functions { result.functions ≡ self.now.functions }
    {
        TopFile {
            path: &self.path,
            number: self.number,
            names: &self.names,
            functions: self.functions,
        }
    }
}
