//! How the program ends: the exit status, and the lines on standard error.

ghost use Rattle.std.specs.Prelude.{◌≡◌};
ghost use Rattle.pack_host.specs.Endings.{status_of};

use packing::{FileSize, LeftOut, PackStop, Packed, Unread};
use std::io;

/// The exit status: 0 where the input was written, 1 where something would be left out that may
/// not be, 2 where the input would be too long, 3 where memory was refused, 4 where the folder
/// couldn't be read or the input couldn't be written.
pub fn status(packed: &Result<Packed, PackStop>) -> u8
    ensures { result ≡ status_of packed.now }
{
    match packed {
        Ok(_) => 0,
        Err(PackStop::LeftOut(_)) => 1,
        Err(PackStop::TooLong(_)) => 2,
        Err(PackStop::NoMemory) => 3,
        Err(PackStop::Root(_) | PackStop::Write) => 4,
    }
}

/// What is the matter with the folder itself, and what to do.
fn root_text(unread: Unread) -> &'static str {
    match unread {
        Unread::Gone => "isn't a folder: give one by --root DIR",
        Unread::Denied => "may not be read: change its permissions",
        Unread::NameTooLong => "has too long a path for the system",
        Unread::TooLong | Unread::Failed | Unread::NoMemory => "couldn't be read",
    }
}

/// Names what is left out, a line each.
fn tell_left<R: Eprint>(rt: &R, left: &[LeftOut]) -> io::Result<()> {
    for line in left {
        eprintln!(rt; "bzlan_pack: left out: {line}")?;
    }
    Ok(())
}

/// Counts what was packed and what was left out.
fn tell_counts<R: Eprint>(rt: &R, packed: &Packed) -> io::Result<()> {
    let counts = packed.counts;
    let (packages, modules, sources) = (counts.packages, counts.modules, counts.sources);
    let files = packages.saturating_add(modules).saturating_add(sources);
    let left = packed.left.len();
    eprintln!(rt;
        "bzlan_pack: packed: {files} (packages {packages}, modules {modules}, sources {sources}); left out: {left}"
    )
}

/// Names the greatest files of an input that is too long.
fn tell_sizes<R: Eprint>(rt: &R, sizes: &[FileSize]) -> io::Result<()> {
    eprintln!(rt;
        "bzlan_pack: the input would have more than 16777216 bytes: pack a smaller folder; its greatest files are"
    )?;
    for size in sizes {
        let path = size.path.as_str();
        let bytes = size.bytes;
        eprintln!(rt; "bzlan_pack: {path:?} of {bytes} bytes")?;
    }
    Ok(())
}

/// Tells on standard error what was packed, what was left out, and why nothing was packed.
///
/// # Errors
///
/// Where standard error doesn't take a line.
pub fn tell<R: Eprint>(rt: &R, root: &str, packed: &Result<Packed, PackStop>) -> io::Result<()> {
    match packed {
        Ok(packed) => {
            tell_left(rt, &packed.left)?;
            tell_counts(rt, packed)
        }
        Err(PackStop::LeftOut(left)) => {
            tell_left(rt, left)?;
            eprintln!(rt; "bzlan_pack: nothing is written, since --strict lets nothing be left out")
        }
        Err(PackStop::TooLong(sizes)) => tell_sizes(rt, sizes),
        Err(PackStop::NoMemory) => eprintln!(rt; "bzlan_pack: no memory"),
        Err(PackStop::Root(unread)) => {
            let text = root_text(*unread);
            eprintln!(rt; "bzlan_pack: {root:?} {text}")
        }
        Err(PackStop::Write) => eprintln!(rt; "bzlan_pack: standard output takes no more"),
    }
}
