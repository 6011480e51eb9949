//! A whole folder packed: from its walk to the input that is written.

ghost use Rattle.std.specs.Prelude.{◌≡◌, ◌≢◌, ◌++◌, ◌∷◌, [], Bool, true, false, All, Err};
ghost use Rattle.std.specs.Prelude.{IfErr, IfOk, OnOk};
ghost use Rattle.std.specs.Io.KnownBytes.{Appends};
ghost use Rattle.devices.specs.Devices.{Failed};
ghost use Rattle.packing.specs.Folders.{IsFound};
ghost use Rattle.std.specs.List.Sorted.{IsPermutation};
ghost use Rattle.packing.specs.Packs.{AreInOrder, Packs};
ghost use Rattle.packing.specs.Refusals.{AreSizes, BeginsInput, IsSize, Refuses};

use crate::folders::{Folder, Unread};
use crate::leaving::LeftOut;
use crate::walk::{Walk, walk_through};
use crate::writing::{Counts, WriteStop, Writing, is_used};
use devices::{Sink, WriteFailed, write_all};
use plain::Text;
use std::alloc::{AllocError, Global};
use std::collections::BTreeSet;
use workspace::{TEXT_LIMIT, is_path};

/// How many of the greatest files a refusal names.
const GREATEST: usize = 5;

/// A file and how many bytes it has.
#[derive(Drop, PartialEq, Eq, PartialOrd, Ord)]
pub struct FileSize {
    /// How many bytes.
    pub bytes: usize,
    /// Its path.
    pub path: Text,
}

/// What was packed.
#[derive(Drop)]
pub struct Packed {
    /// The bytes that spell the workspace.
    pub input: Vec<u8>,
    /// What is left out, by the bytes of the paths.
    pub left: Vec<LeftOut>,
    /// How many files of each kind it has.
    pub counts: Counts,
}

/// Why nothing was packed.
#[derive(Drop)]
pub enum PackStop {
    /// The folder itself couldn't be read.
    Root(Unread),
    /// The input would have too many bytes. These are the greatest of the files whose texts are
    /// used and could be packed.
    TooLong(Vec<FileSize>),
    /// This is left out, and nothing may be.
    LeftOut(Vec<LeftOut>),
    /// Memory was refused.
    NoMemory,
    /// The writer failed. A beginning of the input was written; after any other stop, nothing.
    Write,
}

/// The size of a file behind the others, if its text is used and can be packed.
fn push_size<F: Folder>(
    folder: &F,
    alloc: Global,
    path: &Text,
    sizes: &mut Vec<FileSize>,
) -> Result<(), AllocError>
    requires { IsFound (F.at folder.now) path.now }
    ensures { OnOk result (All (IsSize (F.at folder.now)) sizes.old.items
        → All (IsSize (F.at folder.now)) sizes.new.items) }
{
    if !is_path(path.as_str()) || !is_used(path.as_str()) {
        return Ok(());
    }
    let bytes = match folder.bytes(alloc, path.as_str(), TEXT_LIMIT) {
        Ok(bytes) => bytes,
        Err(Unread::NoMemory) => return Err(AllocError),
        Err(_) => return Ok(()),
    };
    let Ok(_) = str::from_utf8(&bytes) else {
        return Ok(());
    };
    sizes.push(FileSize {
        bytes: bytes.len(),
        path: path.share()?,
    })?;
    Ok(())
}

/// The sizes of the files whose texts are used, where these can be packed.
fn sizes_of<F: Folder>(
    folder: &F,
    alloc: Global,
    files: &BTreeSet<Text>,
) -> Result<Vec<FileSize>, AllocError>
    requires { All (IsFound (F.at folder.now)) files.now.keys }
    ensures { IfOk result (λ v. All (IsSize (F.at folder.now)) v.items) }
{
    let mut sizes = Vec::new(alloc);
    for path in files {
        push_size(folder, alloc, path, &mut sizes)?;
    }
    Ok(sizes)
}

/// The greatest of the files whose texts are used, the greatest first.
fn greatest<F: Folder>(
    folder: &F,
    alloc: Global,
    files: &BTreeSet<Text>,
) -> Result<Vec<FileSize>, AllocError>
    requires { All (IsFound (F.at folder.now)) files.now.keys }
    ensures { IfOk result (λ v. AreSizes (F.at folder.now) v.items) }
{
    let mut sizes = sizes_of(folder, alloc, files)?;
    sizes.sort_unstable();
    sizes.reverse();
    sizes.truncate(GREATEST);
    Ok(sizes)
}

/// The input with its last bracket, and what is left out in order.
fn closed(mut writing: Writing) -> Result<Packed, PackStop>
    ensures input { IfOk result (λ p. p.input.items ≡ writing.input.items ++ 93 ∷ []) }
    ensures left { IfOk result (λ p. IsPermutation writing.left.items p.left.items) }
    ensures ordered { IfOk result (λ p. AreInOrder p.left.items) }
    ensures counted { IfOk result (λ p. p.counts ≡ writing.counts) }
    ensures memory { IfErr result (λ e. e ≡ PackStop.NoMemory) }
{
    writing.left.sort_unstable();
    match writing.input.push(b']') {
        Ok(()) => Ok(Packed {
            input: writing.input,
            left: writing.left,
            counts: writing.counts,
        }),
        Err(_) => Err(PackStop::NoMemory),
    }
}

/// Packs a folder: its input, and what is left out.
///
/// # Errors
///
/// `Root`, `TooLong` and `NoMemory`.
fn pack_folder<F: Folder>(folder: &F, alloc: Global) -> Result<Packed, PackStop>
    ensures packs { IfOk result (Packs (F.at folder.now)) }
    ensures refuses { IfErr result (λ e. (strict : Bool) → Refuses (F.at folder.now) strict e) }
    ensures unwritten { result ≡ Err PackStop.Write → ⊥ }
{
    let root = match folder.names(alloc, "") {
        Ok(root) => root,
        Err(Unread::NoMemory) => return Err(PackStop::NoMemory),
        Err(unread) => return Err(PackStop::Root(unread)),
    };
    let Ok(Walk { files, left, .. }) = walk_through(folder, alloc, root) else {
        return Err(PackStop::NoMemory);
    };
    match Writing::of_files(folder, alloc, &files, left) {
        Ok(writing) => closed(writing),
        Err(WriteStop::TooLong) => match greatest(folder, alloc, &files) {
            Ok(sizes) => Err(PackStop::TooLong(sizes)),
            Err(_) => Err(PackStop::NoMemory),
        },
        Err(WriteStop::NoMemory) => Err(PackStop::NoMemory),
    }
}

/// Packs a folder and writes the input: bytes that spell the workspace of its files ([`Packed`]).
///
/// A file that has no place in a workspace is left out, and so is what can't be read; each is
/// named. Where `strict` says so, nothing may be left out. `folder` is read by its names and texts;
/// links, folders whose name begins with a dot, `bazel-*` in the root and empty names are passed
/// over.
///
/// # Errors
///
/// `Root` where the folder itself can't be read; `TooLong` where the input would be above the
/// limit; `LeftOut` where something is left out that may not be; `Write` where the writer failed;
/// `NoMemory` where memory was refused. Only after `Write` something was written, a beginning of
/// the input.
pub fn pack<F: Folder, K: Sink>(
    folder: &F,
    alloc: Global,
    strict: bool,
    sink: &mut K,
) -> Result<Packed, PackStop>
    ensures packs { IfOk result (Packs (F.at folder.now)) }
    ensures strict { IfOk result (λ p. strict ≡ true → p.left.items ≡ []) }
    ensures writes { IfOk result
        (λ p. Appends (K.contents sink.old) (K.contents sink.new) p.input.items) }
    ensures flushed { OnOk result (K.flushed sink.new ≡ true) }
    ensures counted { OnOk result (K.failures sink.new ≡ K.failures sink.old) }
    ensures refuses { IfErr result (Refuses (F.at folder.now) strict) }
    ensures nothing { IfErr result (λ e. e ≢ PackStop.Write → sink.new ≡ sink.old) }
    ensures write_only { result ≡ Err PackStop.Write
        → Failed (K.failures sink.old) (K.failures sink.new) }
    ensures unflushed { result ≡ Err PackStop.Write → K.flushed sink.new ≡ false }
    ensures beginning { result ≡ Err PackStop.Write
        → BeginsInput (F.at folder.now) strict (K.contents sink.old) (K.contents sink.new) }
{
    let packed = match pack_folder(folder, alloc) {
        Ok(packed) => packed,
        Err(stop) => return Err(stop),
    };
    if strict && !packed.left.is_empty() {
        return Err(PackStop::LeftOut(packed.left));
    }
    match write_all(sink, packed.input.as_slice()) {
        Ok(()) => Ok(packed),
        Err(WriteFailed) => Err(PackStop::Write),
    }
}
