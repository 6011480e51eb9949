//! The folders of the system.

ghost use Rattle.std.specs.Prelude.{None};

use devices::{Counted, InputStop, read_input};
use packing::{Folder, Kind, Names, Unread};
use plain::Text;
use std::alloc::{AllocError, Global};
use std::rt::Files;
use std::{fs, io};

/// A folder of the system, by the path of its root.
#[derive(Drop)]
pub struct HostFolder<'a, R> {
    rt: &'a R,
    root: &'a str,
}

/// Why the system didn't read something.
fn unread(error: &io::Error) -> Unread {
    match error.kind() {
        io::ErrorKind::NotFound | io::ErrorKind::NotADirectory => Unread::Gone,
        io::ErrorKind::PermissionDenied => Unread::Denied,
        io::ErrorKind::InvalidFilename => Unread::NameTooLong,
        io::ErrorKind::OutOfMemory => Unread::NoMemory,
        _ => Unread::Failed,
    }
}

impl<'a, R: Files + AllocGlobal + Clone + Drop> HostFolder<'a, R> {
    /// The folder at a path of the system.
    pub fn new(rt: &'a R, root: &'a str) -> HostFolder<'a, R> {
        HostFolder { rt, root }
    }

    /// The system's path of a path in the folder.
    fn system_path(&self, alloc: Global, path: &str) -> Result<String, Unread> {
        let root = self.root;
        let made = if path.is_empty() {
            String::from_str(alloc, root)
        } else {
            format!(in alloc; "{root}/{path}")
        };
        match made {
            Ok(path) => Ok(path),
            Err(_) => Err(Unread::NoMemory),
        }
    }
}

/// The names in a folder of the system.
fn names_at<R: Files + AllocGlobal + Clone + Drop>(
    rt: &R,
    alloc: Global,
    path: &str,
) -> Result<Names, Unread> {
    let entries = match fs::read_dir(rt, path) {
        Ok(entries) => entries,
        Err(error) => return Err(unread(&error)),
    };
    let mut names = Vec::new(alloc);
    let mut others = false;
    for entry in entries {
        match entry {
            Ok(entry) => match push_name(alloc, &mut names, entry.file_name()) {
                Ok(()) => {}
                Err(_) => return Err(Unread::NoMemory),
            },
            Err(error) => match error.kind() {
                io::ErrorKind::InvalidFilename => others = true,
                _ => return Err(unread(&error)),
            },
        }
    }
    Ok(Names { names, others })
}

/// Puts a name behind the others.
fn push_name(alloc: Global, names: &mut Vec<Text>, name: &str) -> Result<(), AllocError> {
    names.push(Text::new(alloc, name)?)?;
    Ok(())
}

impl<'a, R: Files + AllocGlobal + Clone + Drop> Folder for HostFolder<'a, R> {
    ghost at = { λ _ _. None };

    fn names(&self, alloc: Global, path: &str) -> Result<Names, Unread> {
        let path = self.system_path(alloc, path)?;
        names_at(self.rt, alloc, path.as_str())
    }

    fn kind(&self, alloc: Global, path: &str) -> Result<Kind, Unread> {
        let path = self.system_path(alloc, path)?;
        let metadata = match fs::symlink_metadata(self.rt, path.as_str()) {
            Ok(metadata) => metadata,
            Err(error) => return Err(unread(&error)),
        };
        if metadata.is_symlink() {
            Ok(Kind::Link)
        } else if metadata.is_dir() {
            Ok(Kind::Folder)
        } else if metadata.is_file() {
            Ok(Kind::File)
        } else {
            Ok(Kind::Special)
        }
    }

    fn bytes(&self, alloc: Global, path: &str, limit: usize) -> Result<Vec<u8>, Unread> {
        let path = self.system_path(alloc, path)?;
        let file = match fs::open(self.rt, path.as_str()) {
            Ok(file) => file,
            Err(error) => return Err(unread(&error)),
        };
        match read_input(alloc, &mut Counted::new(file), limit) {
            Ok(bytes) => Ok(bytes),
            Err(InputStop::Read) => Err(Unread::Failed),
            Err(InputStop::TooLong) => Err(Unread::TooLong),
            Err(InputStop::NoMemory) => Err(Unread::NoMemory),
        }
    }
}
