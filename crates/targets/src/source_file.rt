//! Source files, with what they offer.
ghost use Rattle.std.specs.Prelude.{◌≡◌, IfOk};
ghost use Rattle.targets.specs.Sources.{info_with, source_files};

use depsets::{Depset, Element, FileRef, Id, Order};
use operations::DefaultInfo;
use plain::Shared;
use std::alloc::{AllocError, Global};
use std::marker::Model;
use values::{Branch, Frozen, Leaf};

/// A source file, as a File, with the `DefaultInfo` that it offers: made once, and lent to each who
/// reads it. To a contract it is its File.
#[derive(Drop)]
pub struct SourceFile {
    file: Shared<FileRef>,
    info: Frozen,
}

impl Model for SourceFile {
    ghost use Rattle.std.specs.Prelude.{◌≡◌};
    ghost use Rattle.depsets.specs.declared.element.FileRef.{FileRef as File};
    ghost use Rattle.targets.specs.Sources.{info_with, source_files};

    ghost Value = { File };

    ghost view = { λ s. s.file };

    ghost invariant = { λ s. s.info ≡ info_with (source_files s.file) };
}

impl SourceFile {
    /// The source file that is this File.
    ///
    /// # Errors
    ///
    /// `AllocError` where memory was refused.
    pub fn new(
        alloc: Global,
        file: Shared<FileRef>,
        info: &DefaultInfo,
    ) -> Result<SourceFile, AllocError>
        ensures { IfOk result (λ s. s ≡ file) }
    {
        let info = info_with(alloc, source_files(alloc, &file)?, info)?;
        Ok(SourceFile { file, info })
    }

    /// It, as a File.
    pub fn file(&self) -> &FileRef
        ensures { result.now ≡ self.now }
    {
        self.file.get()
    }

    /// The `DefaultInfo` that it offers.
    pub fn info(&self) -> &Frozen
        ensures { result.now ≡ info_with (source_files self.now) }
    {
        &self.info
    }
}

/// The depset of a source file, with serial 0: it has the File alone.
fn source_files(alloc: Global, file: &Shared<FileRef>) -> Result<Depset, AllocError>
    ensures { IfOk result (λ d. d ≡ source_files file.now) }
{
    let mut direct = Vec::with_capacity(alloc, 1)?;
    direct.push(Element::File(file.share()?))?;
    let owner = file.get().owner.share()?;
    let id = Id { owner, serial: 0 };
    match Depset::new(alloc, id, Order::Default, direct, Vec::new(alloc)) {
        Ok(depset) => Ok(depset),
        Err(_) => Err(AllocError),
    }
}

/// A `DefaultInfo` with these Files.
///
/// # Errors
///
/// `AllocError` where memory was refused.
pub fn info_with(alloc: Global, files: Depset, info: &DefaultInfo) -> Result<Frozen, AllocError>
    ensures { IfOk result (λ t. t ≡ info_with files) }
{
    let mut fields = Vec::with_capacity(alloc, 1)?;
    fields.push(Some(Frozen::of_leaf(Leaf::Depset(files))))?;
    let instance = Branch::instance(alloc, info.provider().share()?, fields)?;
    Ok(Frozen::of_branch(instance))
}
