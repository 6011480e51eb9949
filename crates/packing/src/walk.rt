//! The walk through a folder: its files, and what is left out.
//!
//! Folders that wait stand in a list, so that nothing recurses by their depth.

ghost use Rattle.std.specs.Prelude.{◌≡◌, ◌≢◌, ℕ, List, [], Contains, IfOk, OnOk};
ghost use Rattle.packing.specs.Folders.{At, Comes, HasNames, IsFile, IsFolder, IsListed};
ghost use Rattle.packing.specs.Folders.{Reaches, is_hidden, passes_over};
ghost use Rattle.packing.specs.Packs.{Holds, IsUnread};
ghost use Rattle.packing.specs.Walks.{CoversFrom, CoversName, Grows, IsBegun, IsWalked, Stays};

use crate::folders::{Folder, Kind, Names, Unread, below};
use crate::leaving::{LeftOut, Reason};
use plain::Text;
use std::alloc::{AllocError, Global};
use std::collections::BTreeSet;

/// What a walk has found, and where it has still to go.
#[derive(Drop)]
pub struct Walk {
    /// The folders that it has still to go into.
    pub waiting: Vec<Text>,
    /// The paths of regular files, in order.
    pub files: BTreeSet<Text>,
    /// What is left out.
    pub left: Vec<LeftOut>,
}

/// Whether a name in a folder is passed over: `bazel-*` in the root, as Bazel's links to what it
/// makes are called, and the empty name, which no system has.
fn passes_over(folder: &str, name: &str) -> bool
    ensures { result ≡ passes_over folder.now name.now }
{
    name.is_empty() || folder.is_empty() && name.starts_with("bazel-")
}

/// Whether a name begins with a dot.
fn is_hidden(name: &str) -> bool
    ensures { result ≡ is_hidden name.now }
{
    name.starts_with(".")
}

/// The reason of what couldn't be read.
///
/// # Errors
///
/// `AllocError` where it couldn't be read because memory was refused.
pub fn unread_reason(unread: Unread) -> Result<Reason, AllocError>
    ensures holds { IfOk result (λ r. (at : At) (path : List ℕ)
        → IsUnread (at path) path unread → Holds at path r) }
    ensures itself { IfOk result (λ r. r ≢ Reason.NamesNotUtf8) }
    ensures memory { OnOk result (unread ≢ Unread.NoMemory) }
{
    match unread {
        Unread::Gone => Ok(Reason::Gone),
        Unread::Denied => Ok(Reason::Denied),
        Unread::NameTooLong => Ok(Reason::NameTooLong),
        Unread::TooLong | Unread::Failed => Ok(Reason::Failed),
        Unread::NoMemory => Err(AllocError),
    }
}

impl Walk {
    /// Nothing found, and nowhere to go.
    fn new(alloc: Global) -> Walk
        ensures waiting { result.waiting.items ≡ [] }
        ensures files { result.files.keys ≡ [] }
        ensures left { result.left.items ≡ [] }
    {
        Walk {
            waiting: Vec::new(alloc),
            files: BTreeSet::new(alloc),
            left: Vec::new(alloc),
        }
    }

    /// Names what is left out.
    fn leave(&mut self, path: Text, reason: Reason) -> Result<(), AllocError>
        ensures grows { OnOk result ((at : At) → Holds at path reason
            → Grows at self.old self.new) }
        ensures named { OnOk result (Contains self.new.left.items
            (record { «path» = path; reason = reason })) }
        ensures only { OnOk result ((at : At) → Comes at path → Stays at self.old self.new) }
    {
        self.left.push(LeftOut { path, reason })?;
        Ok(())
    }

    /// Goes into a folder later.
    fn wait(&mut self, path: Text) -> Result<(), AllocError>
        ensures grows { OnOk result ((at : At) → IsFolder (at path) → Grows at self.old self.new) }
        ensures covers { OnOk result ((at : At) → CoversFrom at self.new path) }
        ensures only { OnOk result ((at : At) → Comes at path → Stays at self.old self.new) }
    {
        self.waiting.push(path)?;
        Ok(())
    }

    /// Takes a regular file.
    fn find(&mut self, path: Text) -> Result<(), AllocError>
        ensures grows { OnOk result ((at : At) → IsFile (at path) → Grows at self.old self.new) }
        ensures has { OnOk result (Contains self.new.files.keys path) }
        ensures only { OnOk result ((at : At) → Reaches at [] path → Stays at self.old self.new) }
    {
        self.files.insert(path)?;
        Ok(())
    }

    /// Takes what a name in a folder stands for.
    fn take<F: Folder>(
        &mut self,
        folder: &F,
        alloc: Global,
        from: &str,
        name: &str,
    ) -> Result<(), AllocError>
        ensures grows { OnOk result (Grows (F.at folder.now) self.old self.new) }
        ensures covers { OnOk result (CoversName (F.at folder.now) self.new from.now name.now) }
        ensures only { OnOk result (IsListed (F.at folder.now) from.now name.now
            → Stays (F.at folder.now) self.old self.new) }
    {
        if passes_over(from, name) {
            return Ok(());
        }
        let path = below(alloc, from, name)?;
        match folder.kind(alloc, path.as_str()) {
            Ok(Kind::Folder) => {
                if is_hidden(name) {
                    return Ok(());
                }
                self.wait(path)
            }
            Ok(Kind::File) => self.find(path),
            Ok(Kind::Link) => Ok(()),
            Ok(Kind::Special) => self.leave(path, Reason::Special),
            Err(unread) => {
                let reason = unread_reason(unread)?;
                self.leave(path, reason)
            }
        }
    }

    /// Takes what each name in a folder stands for.
    fn take_each<F: Folder>(
        &mut self,
        folder: &F,
        alloc: Global,
        from: &str,
        names: &[Text],
    ) -> Result<(), AllocError>
        ensures grows { OnOk result (Grows (F.at folder.now) self.old self.new) }
        ensures covers { OnOk result ((name : List ℕ) → Contains names.now name
            → CoversName (F.at folder.now) self.new from.now name) }
        ensures only { OnOk result (((name : List ℕ) → Contains names.now name
            → IsListed (F.at folder.now) from.now name)
            → Stays (F.at folder.now) self.old self.new) }
    {
        for name in names {
            self.take(folder, alloc, from, name.as_str())?;
        }
        Ok(())
    }

    /// Goes through the names in a folder.
    fn go_in<F: Folder>(
        &mut self,
        folder: &F,
        alloc: Global,
        from: Text,
        listing: Names,
    ) -> Result<(), AllocError>
        requires { HasNames (F.at folder.now from) listing.names.items listing.others }
        ensures grows { OnOk result (Grows (F.at folder.now) self.old self.new) }
        ensures covers { OnOk result (CoversFrom (F.at folder.now) self.new from) }
        ensures only { OnOk result (Comes (F.at folder.now) from
            → Stays (F.at folder.now) self.old self.new) }
    {
        self.take_each(folder, alloc, from.as_str(), &listing.names)?;
        if listing.others {
            self.leave(from, Reason::NamesNotUtf8)?;
        }
        Ok(())
    }

    /// Goes into a folder.
    fn visit<F: Folder>(&mut self, folder: &F, alloc: Global, from: Text) -> Result<(), AllocError>
        requires { IsFolder (F.at folder.now from) }
        ensures grows { OnOk result (Grows (F.at folder.now) self.old self.new) }
        ensures covers { OnOk result (CoversFrom (F.at folder.now) self.new from) }
        ensures only { OnOk result (Comes (F.at folder.now) from
            → Stays (F.at folder.now) self.old self.new) }
    {
        match folder.names(alloc, from.as_str()) {
            Ok(listing) => self.go_in(folder, alloc, from, listing),
            Err(unread) => {
                let reason = unread_reason(unread)?;
                self.leave(from, reason)
            }
        }
    }

    /// Goes through the names in the root.
    fn begin<F: Folder>(folder: &F, alloc: Global, root: Names) -> Result<Walk, AllocError>
        requires { HasNames (F.at folder.now []) root.names.items root.others }
        ensures { IfOk result (IsBegun (F.at folder.now)) }
    {
        let mut walk = Walk::new(alloc);
        walk.go_in(folder, alloc, Text::new(alloc, "")?, root)?;
        Ok(walk)
    }
}

/// Walks through a folder, from the names in its root on: the regular files that it reaches, and
/// what is left out.
///
/// # Errors
///
/// `AllocError` where memory was refused, or where there were 2^64 - 1 folders.
pub fn walk_through<F: Folder>(folder: &F, alloc: Global, root: Names) -> Result<Walk, AllocError>
    requires { HasNames (F.at folder.now []) root.names.items root.others }
    ensures { IfOk result (IsWalked (F.at folder.now)) }
{
    let mut walk = Walk::begin(folder, alloc, root)?;
    for _ in 0..u64::MAX {
        let Some(from) = walk.waiting.pop() else {
            return Ok(walk);
        };
        walk.visit(folder, alloc, from)?;
    }
    Err(AllocError)
}
