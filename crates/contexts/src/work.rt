//! What an implementation has done so far.
ghost use Rattle.std.specs.Prelude.{◌≡◌, ◌++◌, ◌∷◌, [], false, IfOk, OnOk, OnErr};
ghost use Rattle.depsets.specs.Keys.{keep, keep_all};
ghost use Rattle.contexts.specs.Works.{same_file, is_among, repeats, many_or_few};

use depsets::FileRef;
use indexmap::IndexSet;
use plain::Shared;
use std::alloc::{AllocError, Global};
use std::marker::Model;
use targets::Actions;

/// The Files that an implementation has declared and the actions that it has registered, both in
/// order.
#[derive(Drop)]
pub struct Work {
    /// The Files that were declared.
    pub files: DeclaredFiles,
    /// The actions that were registered.
    pub actions: Actions,
}

/// So many Files, at most, are gone through rather than found by hash.
const FEW: usize = 8;

/// Files that are declared, in order, each once. Few are gone through, which takes one list alone;
/// many are found by hash.
#[derive(Drop)]
pub struct DeclaredFiles {
    alloc: Global,
    /// All of them while they are few; then those that came first.
    few: Vec<Shared<FileRef>>,
    /// All of them once they are many; until then none.
    many: IndexSet<Shared<FileRef>>,
}

impl Model for DeclaredFiles {
    ghost use Rattle.std.specs.Prelude.{◌≡◌, List, false};
    ghost use Rattle.depsets.specs.declared.element.FileRef.{FileRef as File};
    ghost use Rattle.contexts.specs.Works.{repeats, many_or_few};

    ghost Value = { List File };

    ghost view = { λ f. many_or_few f.many.keys f.few.items };

    ghost invariant = { λ f. repeats f.few.items ≡ false };
}

impl DeclaredFiles {
    /// None yet.
    pub fn new(alloc: Global) -> DeclaredFiles
        ensures { result ≡ [] }
    {
        DeclaredFiles {
            alloc,
            few: Vec::new(alloc),
            many: IndexSet::new(alloc),
        }
    }

    /// All of them, in order.
    pub fn as_slice(&self) -> &[Shared<FileRef>]
        ensures { result.now ≡ self.now }
    {
        let many = self.many.as_slice();
        if many.is_empty() {
            self.few.as_slice()
        } else {
            many
        }
    }

    /// Whether a File is declared.
    pub fn has(&self, file: &Shared<FileRef>) -> bool
        ensures { result ≡ is_among file.now self.now }
    {
        if self.many.as_slice().is_empty() {
            is_among(file, self.few.as_slice())
        } else {
            self.many.contains(file)
        }
    }

    /// Puts a File last. After a refusal of memory they are as they were.
    ///
    /// # Errors
    ///
    /// `AllocError` where memory was refused.
    pub fn push(&mut self, file: Shared<FileRef>) -> Result<(), AllocError>
        requires { is_among file self.old ≡ false }
        ensures ok { OnOk result (self.new ≡ self.old ++ file ∷ []) }
        ensures err { OnErr result (self.new ≡ self.old) }
    {
        if self.many.as_slice().is_empty() {
            push_to_few(self.alloc, &mut self.few, &mut self.many, file)
        } else {
            put(&mut self.many, file)
        }
    }
}

/// Puts a File last where there are none of the many: behind the few, or, where these would be more
/// than [`FEW`], behind them among those that are found by hash.
#[tactic(auto, using(crate::proofs::Declared::distinct_more, crate::proofs::Declared::many_made))]
fn push_to_few(
    alloc: Global,
    few: &mut Vec<Shared<FileRef>>,
    many: &mut IndexSet<Shared<FileRef>>,
    file: Shared<FileRef>,
) -> Result<(), AllocError>
    requires none { many.old.keys ≡ [] }
    requires distinct { repeats few.old.items ≡ false }
    requires new { is_among file few.old.items ≡ false }
    ensures ok { OnOk result
        (many_or_few many.new.keys few.new.items ≡ few.old.items ++ file ∷ []) }
    ensures err { OnErr result (many_or_few many.new.keys few.new.items ≡ few.old.items) }
    ensures distinct { repeats few.new.items ≡ false }
{
    if few.len() < FEW {
        few.push(file)?;
        return Ok(());
    }
    *many = found_by_hash(alloc, few.as_slice(), file)?;
    Ok(())
}

/// Whether a File is among those of a list, by going through them.
fn is_among(file: &Shared<FileRef>, files: &[Shared<FileRef>]) -> bool
    ensures { result ≡ is_among file.now files.now }
{
    for other in files {
        if file == other {
            return true;
        }
    }
    false
}

/// Files and one more, each found by its hash.
fn found_by_hash(
    alloc: Global,
    files: &[Shared<FileRef>],
    file: Shared<FileRef>,
) -> Result<IndexSet<Shared<FileRef>>, AllocError>
    ensures { IfOk result
        (λ s. s.keys ≡ keep same_file (keep_all same_file [] files.now) file) }
{
    let mut found = IndexSet::new(alloc);
    for other in files {
        put(&mut found, other.share()?)?;
    }
    put(&mut found, file)?;
    Ok(found)
}

/// Puts a File last, unless it is there.
fn put(files: &mut IndexSet<Shared<FileRef>>, file: Shared<FileRef>) -> Result<(), AllocError>
    ensures ok { OnOk result (files.new.keys ≡ keep same_file files.old.keys file) }
    ensures err { OnErr result (files.new.keys ≡ files.old.keys) }
{
    files.insert(file)?;
    Ok(())
}

impl Work {
    /// Nothing yet.
    pub fn new(alloc: Global) -> Work
        ensures { result ≡ record { files = []; actions = [] } }
    {
        Work {
            files: DeclaredFiles::new(alloc),
            actions: Actions::new(alloc),
        }
    }
}
