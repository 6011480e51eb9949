//! Folders in memory.

ghost use Rattle.std.specs.Prelude.{None};

use crate::singles::given;
use packing::{Folder, Kind, Names, Unread};
use plain::Text;
use std::alloc::{AllocError, Global};

/// A folder in memory, written down as lines: a letter, a space, a path and for a file with a text
/// `=` and that text.
///
/// `d` is a folder and `l` one that may not be read; `f` is a file, `n` one that isn't UTF-8, and
/// `g` one that goes away; `s` is a link, `x` a device, and `u` a name that isn't UTF-8. The root
/// isn't written down.
#[derive(Clone, Copy)]
pub struct Tree<'a> {
    /// The lines.
    pub lines: &'a str,
}

/// The letter, the path and the text of a line.
fn parts(line: &str) -> (&str, &str, &str) {
    let (letter, rest) = line.split_once(' ').unwrap_or((line, ""));
    let (path, text) = rest.split_once('=').unwrap_or((rest, ""));
    (letter, path, text)
}

/// The folder and the name of a path.
fn place(path: &str) -> (&str, &str) {
    path.rsplit_once('/').unwrap_or(("", path))
}

impl<'a> Tree<'a> {
    /// The letter and the text of what stands at a path.
    fn at(&self, path: &str) -> (&'a str, &'a str) {
        if path.is_empty() {
            return ("d", "");
        }
        for line in self.lines.lines() {
            let (letter, there, text) = parts(line);
            if there == path {
                return (letter, text);
            }
        }
        ("", "")
    }

    /// The names in a folder.
    fn listed(&self, alloc: Global, folder: &str) -> Result<Names, AllocError> {
        let mut names = Vec::new(alloc);
        let mut others = false;
        for line in self.lines.lines() {
            let (letter, path, _) = parts(line);
            let (above, name) = place(path);
            if above == folder {
                if letter == "u" {
                    others = true;
                } else {
                    names.push(Text::new(alloc, name)?)?;
                }
            }
        }
        Ok(Names { names, others })
    }
}

impl<'a> Folder for Tree<'a> {
    ghost at = { λ _ _. None };

    fn names(&self, alloc: Global, path: &str) -> Result<Names, Unread> {
        let (letter, _) = self.at(path);
        if letter == "d" {
            return match self.listed(alloc, path) {
                Ok(names) => Ok(names),
                Err(_) => Err(Unread::NoMemory),
            };
        }
        Err(Unread::Denied)
    }

    fn kind(&self, _alloc: Global, path: &str) -> Result<Kind, Unread> {
        match self.at(path).0 {
            "d" | "l" => Ok(Kind::Folder),
            "f" | "n" | "g" => Ok(Kind::File),
            "s" => Ok(Kind::Link),
            "x" => Ok(Kind::Special),
            _ => Err(Unread::Gone),
        }
    }

    fn bytes(&self, alloc: Global, path: &str, limit: usize) -> Result<Vec<u8>, Unread> {
        let (letter, text) = self.at(path);
        match letter {
            "f" => given(alloc, text.as_bytes(), limit),
            "n" => given(alloc, b"\xff", limit),
            _ => Err(Unread::Gone),
        }
    }
}

/// A folder of folders `a`, `aa`, `aaa`.. with a module `m.bzl` in each, which all have the same
/// bytes.
#[derive(Clone, Copy)]
pub struct Crowd<'a> {
    /// How many folders.
    pub folders: usize,
    /// The bytes of each module.
    pub bytes: &'a [u8],
}

/// The names `a`, `aa`, `aaa`..
fn many(alloc: Global, count: usize) -> Result<Vec<Text>, AllocError> {
    let mut names = Vec::new(alloc);
    for i in 0..count.min(100) {
        let name = "a".repeat(alloc, i + 1)?;
        names.push(Text::from_string(name)?)?;
    }
    Ok(names)
}

/// The name of a module.
fn module(alloc: Global) -> Result<Vec<Text>, AllocError> {
    let mut names = Vec::new(alloc);
    names.push(Text::new(alloc, "m.bzl")?)?;
    Ok(names)
}

impl<'a> Folder for Crowd<'a> {
    ghost at = { λ _ _. None };

    fn names(&self, alloc: Global, path: &str) -> Result<Names, Unread> {
        let names = if path.is_empty() {
            many(alloc, self.folders)
        } else {
            module(alloc)
        };
        match names {
            Ok(names) => Ok(Names {
                names,
                others: false,
            }),
            Err(_) => Err(Unread::NoMemory),
        }
    }

    fn kind(&self, _alloc: Global, path: &str) -> Result<Kind, Unread> {
        if path.contains('/') {
            Ok(Kind::File)
        } else {
            Ok(Kind::Folder)
        }
    }

    fn bytes(&self, alloc: Global, _path: &str, limit: usize) -> Result<Vec<u8>, Unread> {
        given(alloc, self.bytes, limit)
    }
}
