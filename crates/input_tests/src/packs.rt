//! Folders in memory, and what is packed of them.

use crate::singles::{Single, pack_single};
use crate::trees::{Crowd, Tree};
use fakes::tapes::{Failing, Page, long_text};
use packing::{Folder, LeftOut, PackStop, Packed, pack};
use request::{INPUT_LIMIT, read_workspace};
use std::alloc::{AllocError, Global};
use std::test::Fail;
use workspace::TEXT_LIMIT;

/// What `bzlan` reads of an input, as lines of a path and a text.
fn read_back(alloc: Global, input: &[u8]) -> Result<String, AllocError> {
    let mut lines = String::new(alloc);
    let Ok(workspace) = read_workspace(alloc, Vec::from_slice(alloc, input)?) else {
        lines.push_str("refused")?;
        return Ok(lines);
    };
    for file in workspace.files() {
        let (path, text) = (file.path.as_str(), file.text.as_str());
        write!(&mut lines, "{path}={text}\n")?;
    }
    Ok(lines)
}

/// Whether something is left out whose line begins so.
fn names(alloc: Global, left: &[LeftOut], line: &str) -> Result<bool, AllocError> {
    for out in left {
        if format!(in alloc; "{out}")?.as_str().starts_with(line) {
            return Ok(true);
        }
    }
    Ok(false)
}

/// What a folder is packed to, with the page.
fn packed<F: Folder>(alloc: Global, folder: &F, strict: bool) -> (Result<Packed, PackStop>, Page) {
    let mut page = Page::new(alloc, 100_000, None, Failing::Interrupted);
    let packed = pack(folder, alloc, strict, &mut page);
    (packed, page)
}

/// What has its place in a workspace, and what hasn't.
const LINES: &str =
    "d b\nd a\nd a\ns link\nd bazel-out\nd .git\nf .bazelrc=build\nf MODULE.bazel\nx dev
l locked\nm gone\nu ?\nf a/BUILD=load(\":f.bzl\", \"r\")\t\\ \u{1} caf\u{e9}\nf a/f.bzl\nn a/s.txt
f a/q \".txt\ng a/late.bzl\ng a/late.txt\nn b/BUILD\nf b/BUILD.bazel\nf b/c.bzl=c = 1\nf b/bazel-bin
f bazel-out/x\nf .git/config";

/// What is packed of it.
const FILES: &str =
    ".bazelrc=\na/BUILD=load(\":f.bzl\", \"r\")\t\\ \u{1} caf\u{e9}\na/f.bzl=\na/late.txt=
a/s.txt=\nb/bazel-bin=\nb/c.bzl=c = 1\n";

/// The beginnings of the lines on what is left out.
const LEFT: &str = "\"\" has names in it
\"dev\" is neither
\"gone\" went away
\"locked\" may not be read
\"MODULE.bazel\" isn't served
\"a/late.bzl\" went away
\"a/q \\\".txt\" isn't a legal path
\"b/BUILD\" isn't UTF-8
\"b/BUILD.bazel\" isn't served";

/// Whether that is left out, and no more.
fn are_left(alloc: Global, left: &[LeftOut]) -> Result<bool, AllocError> {
    for line in LEFT.lines() {
        if !names(alloc, left, line)? {
            return Ok(false);
        }
    }
    Ok(left.len() == 9)
}

/// Whether an input has the files, and the counts are theirs.
fn has_files(alloc: Global, packed: &Packed, input: &[u8]) -> Result<bool, AllocError> {
    let counts = packed.counts;
    let is_counted = counts.packages == 1 && counts.modules == 2 && counts.sources == 4;
    let is_same = packed.input.as_slice() == input;
    Ok(read_back(alloc, input)?.as_str() == FILES && is_counted && is_same)
}

/// Whether the folder of the lines is packed so.
fn are_packed(alloc: Global) -> Result<bool, AllocError> {
    let tree = Tree { lines: LINES };
    let (packed, page) = packed(alloc, &tree, false);
    match packed {
        Ok(packed) => {
            let has_files = has_files(alloc, &packed, page.bytes.as_slice())?;
            Ok(has_files && are_left(alloc, &packed.left)?)
        }
        Err(_) => Ok(false),
    }
}

#[test]
fn legal_files_are_packed_and_the_others_named(rt: HostRuntime) -> Result<(), Fail> {
    assert!(rt; are_packed(rt.alloc())?);
    Ok(())
}

/// Whether a folder of so many folders, with a module of these bytes in each, is refused, and
/// nothing is written.
fn is_refused(alloc: Global, folders: usize, bytes: &[u8], strict: bool) -> bool {
    let (packed, page) = packed(alloc, &Crowd { folders, bytes }, strict);
    let is_refused = match &packed {
        Err(PackStop::TooLong(sizes)) => folders == 16 && sizes.len() == 5,
        Err(PackStop::LeftOut(left)) => strict && left.len() == 1,
        _ => false,
    };
    is_refused && page.calls == 0
}

/// Whether such a folder is packed.
fn is_packed(alloc: Global, folders: usize, bytes: &[u8], strict: bool) -> bool {
    let (packed, page) = packed(alloc, &Crowd { folders, bytes }, strict);
    packed.is_ok() && page.bytes.len() < INPUT_LIMIT
}

#[test]
fn nothing_is_written_after_a_refusal(rt: HostRuntime) -> Result<(), Fail> {
    let alloc = rt.alloc();
    let text = long_text(alloc, TEXT_LIMIT + 1)?;
    let (whole, more) = (&text.as_bytes()[1..], text.as_bytes());
    assert!(rt; is_refused(alloc, 16, whole, false));
    assert!(rt; is_refused(alloc, 1, more, true));
    assert!(rt; is_packed(alloc, 15, whole, true));
    assert!(rt; is_packed(alloc, 1, more, false));
    assert!(rt; is_packed(alloc, 0, more, true));
    Ok(())
}

/// Whether a call of the writer that fails is told, where a folder is packed.
fn is_failed(alloc: Global, call: u64, how: Failing) -> bool {
    let mut page = Page::new(alloc, 100_000, Some(call), how);
    let packed = pack(&Tree { lines: "f BUILD" }, alloc, false, &mut page);
    matches!(packed, Err(PackStop::Write))
}

#[test]
fn a_failed_write_is_told(rt: HostRuntime) -> Result<(), Fail> {
    let alloc = rt.alloc();
    assert!(rt; is_failed(alloc, 0, Failing::Stalled));
    assert!(rt; is_failed(alloc, 0, Failing::Interrupted));
    assert!(rt; is_failed(alloc, 1, Failing::Interrupted));
    Ok(())
}

#[test]
fn one_file_is_packed(rt: HostRuntime) -> Result<(), Fail> {
    let alloc = rt.alloc();
    let mut page = Page::new(alloc, 100, None, Failing::Interrupted);
    let folder = Single {
        name: "a.bzl",
        bytes: b"A = 1",
    };
    assert!(rt; pack_single(&folder, alloc, &mut page).is_ok());
    assert!(rt; read_back(alloc, page.bytes.as_slice())?.as_str() == "a.bzl=A = 1\n");
    Ok(())
}

/// What the stored run of `bzlan_pack` prints, to the byte (`crates/bzlan_pack/stdout`).
const STORED: &str =
    "[[\"a/BUILD\",\"load(\\\":i.bzl\\\", \\\"r\\\")\\nr(name = \\\"x\\\")\\n\"],[\"a/i.bzl\",\"I = provider(fields = [\\\"n\\\"])\\ndef _r(ctx):\\n    return [I(n = 1)]\\nr = rule(implementation = _r)\\n\"],[\"b/BUILD\",\"load(\\\"//a:i.bzl\\\", \\\"r\\\")\\nr(name = \\\"y\\\")\\n\"],[\"b/notes.txt\",\"\"]]";

/// The files that it packs.
const STORED_FILES: &str = "a/BUILD=load(\":i.bzl\", \"r\")
r(name = \"x\")

a/i.bzl=I = provider(fields = [\"n\"])
def _r(ctx):
    return [I(n = 1)]
r = rule(implementation = _r)

b/BUILD=load(\"//a:i.bzl\", \"r\")
r(name = \"y\")

b/notes.txt=
";

#[test]
fn the_stored_run_is_read(rt: HostRuntime) -> Result<(), Fail> {
    assert!(rt; read_back(rt.alloc(), STORED.as_bytes())?.as_str() == STORED_FILES);
    Ok(())
}
