//! The input, written file by file in the order of their paths.
//!
//! A text is read, written and let go before the next one is read.

ghost use Rattle.std.specs.Prelude.{◌≡◌, ◌≤◌, ◌++◌, [], ◌∷◌, Err, IfErr, IfOk, OnOk, All};
ghost use Rattle.std.specs.Prelude.{false, length, ◌<◌, IsUtf8, string_bytes, string_len, true};
ghost use Rattle.packing.specs.Folders.{IsFile, IsFound};
ghost use Rattle.packing.specs.Inputs.{begun_text, comma, pair_text};
ghost use Rattle.packing.specs.Packs.{HasCause, Holds, IsOf, counts_of};
ghost use Rattle.packing.specs.Packs.{is_bazel_file, is_used};
ghost use Rattle.request.specs.Input.{input_limit};
ghost use Rattle.packing.specs.Writing.{Exceeds, Stops, Takes, Written, counted_too};
ghost use Rattle.packing.specs.Writing.{one_more};
ghost use Rattle.workspace.specs.Workspaces.{is_file, text_limit};

use crate::folders::{Folder, Unread};
use crate::leaving::{LeftOut, Reason};
use crate::walk::unread_reason;
use json::Writer;
use plain::Text;
use request::INPUT_LIMIT;
use std::alloc::{AllocError, Global};
use std::collections::BTreeSet;
use workspace::{TEXT_LIMIT, is_build_file, is_module, is_path, last_segment};

/// How many files of each kind were packed. A count stays at its greatest number.
#[derive(Clone, Copy, Debug, PartialEq, Eq)]
pub struct Counts {
    /// `BUILD` files.
    pub packages: u64,
    /// Modules.
    pub modules: u64,
    /// All others.
    pub sources: u64,
}

impl Counts {
    /// The counts with one file more.
    fn with(self, path: &str) -> Counts
        ensures { result ≡ counted_too path.now self }
    {
        Counts {
            packages: one_more(self.packages, is_build_file(path)),
            modules: one_more(self.modules, is_module(path)),
            sources: one_more(self.sources, !is_used(path)),
        }
    }
}

/// A count with one more, where there is one.
fn one_more(count: u64, more: bool) -> u64
    ensures { result ≡ one_more more count }
{
    if more { count.saturating_add(1) } else { count }
}

/// An input on its way: the array without its last bracket.
#[derive(Drop)]
pub struct Writing {
    /// The bytes so far.
    pub input: Vec<u8>,
    /// What is left out.
    pub left: Vec<LeftOut>,
    /// How many pairs there are.
    pub counts: Counts,
}

/// Why no input was written.
#[derive(Clone, Copy, Debug, PartialEq, Eq)]
pub enum WriteStop {
    /// It would have too many bytes.
    TooLong,
    /// Memory was refused.
    NoMemory,
}

/// Why a file isn't packed.
#[derive(Clone, Copy, Debug, PartialEq, Eq)]
enum Skip {
    /// It is left out.
    Left(Reason),
    /// Memory was refused.
    NoMemory,
}

/// Whether a path is a `BUILD` file's or a module's, whose text is used.
pub fn is_used(path: &str) -> bool
    ensures { result ≡ is_used path.now }
{
    is_build_file(path) || is_module(path)
}

/// Whether a path is one of `BUILD.bazel` and `MODULE.bazel`.
fn is_bazel_file(path: &str) -> bool
    ensures { result ≡ is_bazel_file path.now }
{
    let name = last_segment(path);
    name == "BUILD.bazel" || name == "MODULE.bazel"
}

/// The text of a regular file as it is packed: empty where it isn't used.
fn used_text<F: Folder>(folder: &F, alloc: Global, path: &str) -> Result<String, Skip>
    requires { IsFile (F.at folder.now path.now) }
    ensures of { IfOk result (λ s. IsOf (F.at folder.now path.now) (path.now, string_bytes s)) }
    ensures limit { IfOk result (λ s. string_len s ≤ text_limit) }
    ensures cause { (r : Reason) → result ≡ Err (Skip.Left r) → Holds (F.at folder.now) path.now r }
    ensures itself { result ≡ Err (Skip.Left Reason.NamesNotUtf8) → ⊥ }
{
    if !is_used(path) {
        return Ok(String::new(alloc));
    }
    let bytes = match folder.bytes(alloc, path, TEXT_LIMIT) {
        Ok(bytes) => bytes,
        Err(Unread::TooLong) => return Err(Skip::Left(Reason::TooLong)),
        Err(unread) => {
            return match unread_reason(unread) {
                Ok(reason) => Err(Skip::Left(reason)),
                Err(_) => Err(Skip::NoMemory),
            };
        }
    };
    match String::from_utf8(bytes) {
        Ok(text) => Ok(text),
        Err(_) => Err(Skip::Left(Reason::NotUtf8)),
    }
}

/// The text of a regular file that has its place in a workspace.
fn packed_text<F: Folder>(folder: &F, alloc: Global, path: &str) -> Result<String, Skip>
    requires { IsFile (F.at folder.now path.now) }
    ensures of { IfOk result (λ s. IsOf (F.at folder.now path.now) (path.now, string_bytes s)) }
    ensures file { IfOk result (λ s. is_file (path.now, string_bytes s) ≡ true) }
    ensures served { OnOk result (is_bazel_file path.now ≡ false) }
    ensures cause { (r : Reason) → result ≡ Err (Skip.Left r) → Holds (F.at folder.now) path.now r }
    ensures itself { result ≡ Err (Skip.Left Reason.NamesNotUtf8) → ⊥ }
{
    if !is_path(path) {
        return Err(Skip::Left(Reason::IllegalPath));
    }
    if is_bazel_file(path) {
        return Err(Skip::Left(Reason::BazelFile));
    }
    used_text(folder, alloc, path)
}

/// A pair behind those that stand in an input.
fn with_pair(mut input: Vec<u8>, path: &str, text: &str) -> Result<Vec<u8>, AllocError>
    ensures pair { IfOk result (λ v. v.items
        ≡ input.items ++ (comma input.items ++ pair_text (path.now, text.now))) }
    ensures utf8 { OnOk result (IsUtf8 (pair_text (path.now, text.now))) }
{
    if input.len() > 1 {
        input.push(b',')?;
    }
    let mut writer = Writer::new(input);
    writer.begin_array()?;
    writer.string(path)?;
    writer.string(text)?;
    writer.end_array()?;
    Ok(writer.into_inner())
}

impl Writing {
    /// The pairs of these files, in their order.
    ///
    /// # Errors
    ///
    /// `TooLong` where they are too many bytes for an input, and `NoMemory` where memory was
    /// refused.
    pub fn of_files<F: Folder>(
        folder: &F,
        alloc: Global,
        files: &BTreeSet<Text>,
        left: Vec<LeftOut>,
    ) -> Result<Writing, WriteStop>
        requires files { All (IsFound (F.at folder.now)) files.now.keys }
        requires causes { All (HasCause (F.at folder.now)) left.items }
        ensures written { IfOk result (Written (F.at folder.now) files.now.keys left.items) }
        ensures stops { IfErr result (Stops (F.at folder.now) files.now.keys) }
    {
        let Ok(mut writing) = Writing::new(alloc, left) else {
            return Err(WriteStop::NoMemory);
        };
        for path in files {
            writing = match writing.with_file(folder, alloc, path) {
                Ok(writing) => writing,
                Err(stop) => return Err(stop),
            };
        }
        Ok(writing)
    }

    /// No pair yet.
    fn new(alloc: Global, left: Vec<LeftOut>) -> Result<Writing, AllocError>
        ensures input { IfOk result (λ w. w.input.items ≡ begun_text []) }
        ensures left { IfOk result (λ w. w.left ≡ left) }
        ensures counted { IfOk result (λ w. w.counts ≡ counts_of []) }
    {
        let mut input = Vec::new(alloc);
        input.push(b'[')?;
        Ok(Writing {
            input,
            left,
            counts: Counts {
                packages: 0,
                modules: 0,
                sources: 0,
            },
        })
    }

    /// A pair behind the others.
    fn with_text(mut self, path: &str, text: &str) -> Result<Writing, WriteStop>
        ensures input { IfOk result (λ w. w.input.items
            ≡ self.input.items ++ (comma self.input.items ++ pair_text (path.now, text.now))) }
        ensures utf8 { OnOk result (IsUtf8 (pair_text (path.now, text.now))) }
        ensures limit { IfOk result (λ w. length w.input.items < input_limit) }
        ensures left { IfOk result (λ w. w.left ≡ self.left) }
        ensures counted { IfOk result (λ w. w.counts ≡ counted_too path.now self.counts) }
        ensures long { result ≡ Err WriteStop.TooLong → input_limit ≤ length (self.input.items
            ++ (comma self.input.items ++ pair_text (path.now, text.now))) }
    {
        let Ok(input) = with_pair(self.input, path, text) else {
            return Err(WriteStop::NoMemory);
        };
        if input.len() >= INPUT_LIMIT {
            return Err(WriteStop::TooLong);
        }
        Ok(Writing {
            input,
            left: self.left,
            counts: self.counts.with(path),
        })
    }

    /// What is left out besides.
    fn without(mut self, path: &Text, reason: Reason) -> Result<Writing, WriteStop>
        ensures input { IfOk result (λ w. w.input ≡ self.input) }
        ensures left { IfOk result (λ w. w.left.items
            ≡ self.left.items ++ record { «path» = path.now; reason = reason } ∷ []) }
        ensures counted { IfOk result (λ w. w.counts ≡ self.counts) }
        ensures short { result ≡ Err WriteStop.TooLong → ⊥ }
    {
        let Ok(path) = path.share() else {
            return Err(WriteStop::NoMemory);
        };
        match self.left.push(LeftOut { path, reason }) {
            Ok(()) => Ok(self),
            Err(_) => Err(WriteStop::NoMemory),
        }
    }

    /// One file more: its pair behind the others, or its name with what is left out.
    fn with_file<F: Folder>(
        self,
        folder: &F,
        alloc: Global,
        path: &Text,
    ) -> Result<Writing, WriteStop>
        requires { IsFound (F.at folder.now) path.now }
        ensures takes { IfOk result (Takes (F.at folder.now) path.now self) }
        ensures long { result ≡ Err WriteStop.TooLong
            → Exceeds (F.at folder.now) path.now self.input.items }
    {
        match packed_text(folder, alloc, path.as_str()) {
            Ok(text) => self.with_text(path.as_str(), text.as_str()),
            Err(Skip::Left(reason)) => self.without(path, reason),
            Err(Skip::NoMemory) => Err(WriteStop::NoMemory),
        }
    }
}
