//! Folders that are walked.

ghost use Rattle.std.specs.Prelude.{◌≡◌, ◌≢◌, ◌≤◌, IfErr, IfOk, Err, vec_len};
ghost use Rattle.packing.specs.Folders.{At, HasBytes, HasKind, HasNames, HasNoBytes, HasNoKind};
ghost use Rattle.packing.specs.Folders.{HasNoNames, IsLonger, below};

use plain::Text;
use std::alloc::{AllocError, Global};

/// What stands at a path.
#[derive(Clone, Copy, Debug, PartialEq, Eq)]
pub enum Kind {
    /// A folder.
    Folder,
    /// A regular file.
    File,
    /// A link, whatever it leads to.
    Link,
    /// Anything else, as a device or a socket.
    Special,
}

/// Why something couldn't be read.
#[derive(Clone, Copy, Debug, PartialEq, Eq)]
pub enum Unread {
    /// It isn't there, or is no longer what it was.
    Gone,
    /// It may not be read.
    Denied,
    /// Its path is too long for the system.
    NameTooLong,
    /// The file has more bytes than were asked for.
    TooLong,
    /// The system failed otherwise.
    Failed,
    /// Memory was refused.
    NoMemory,
}

/// The names in a folder.
#[derive(Drop)]
pub struct Names {
    /// Those that are UTF-8, in any order. One may stand twice.
    pub names: Vec<Text>,
    /// Whether there are others.
    pub others: bool,
}

/// A folder that can be walked.
///
/// It tells what stands at each path below it, where that is known. Paths have `/` between their
/// segments; the folder itself is at the empty path.
pub trait Folder {
    /// What stands at a path; `None` where it isn't known, as of the folders of a system.
    ghost at: { Self → At };

    /// The names in the folder at a path, without `.` and `..`.
    ///
    /// # Errors
    ///
    /// Where the folder can't be read, and `NoMemory` where memory was refused.
    fn names(&self, alloc: Global, path: &str) -> Result<Names, Unread>
        ensures names { IfOk result (λ n.
            HasNames (at self.now path.now) n.names.items n.others) }
        ensures unread { IfErr result (λ e. e ≢ Unread.NoMemory
            → HasNoNames (at self.now path.now) e) };

    /// What stands at a path. A link isn't followed.
    ///
    /// # Errors
    ///
    /// Where the system doesn't tell, and `NoMemory` where memory was refused.
    fn kind(&self, alloc: Global, path: &str) -> Result<Kind, Unread>
        ensures kind { IfOk result (λ k. HasKind (at self.now path.now) k) }
        ensures unread { IfErr result (λ e. e ≢ Unread.NoMemory
            → HasNoKind (at self.now path.now) e) };

    /// The bytes of the regular file at a path, of which there are at most `limit`.
    ///
    /// # Errors
    ///
    /// `TooLong` where there are more, `NoMemory` where memory was refused, and the others where
    /// the file can't be read.
    fn bytes(&self, alloc: Global, path: &str, limit: usize) -> Result<Vec<u8>, Unread>
        ensures bytes { IfOk result (λ b. HasBytes (at self.now path.now) b.items) }
        ensures limit { IfOk result (λ b. vec_len b ≤ limit) }
        ensures long { result ≡ Err Unread.TooLong → IsLonger (at self.now path.now) limit }
        ensures unread { IfErr result (λ e. e ≢ Unread.NoMemory → e ≢ Unread.TooLong
            → HasNoBytes (at self.now path.now) e) };
}

/// The path of a name in a folder.
///
/// # Errors
///
/// `AllocError` where memory was refused.
pub fn below(alloc: Global, folder: &str, name: &str) -> Result<Text, AllocError>
    ensures { IfOk result (λ t. t ≡ below folder.now name.now) }
{
    if folder.is_empty() {
        return Text::new(alloc, name);
    }
    Text::from_string(format!(in alloc; "{folder}/{name}")?)
}
