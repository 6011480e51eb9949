//! Workspaces, as a table of the files that make one and those that don't.
use std::alloc::Global;
use std::test::Fail;
use workspace::{PATH_LIMIT, TEXT_LIMIT, Workspace, WorkspaceRefused};

/// A text of this many bytes.
fn long_text(alloc: Global, length: usize) -> Result<String, Fail> {
    Ok("x".repeat(alloc, length)?)
}

/// Whether these files are a workspace, or are refused where none is wanted.
fn is_made(alloc: Global, files: &[(&str, &str)], is_workspace: bool) -> bool {
    match Workspace::new(alloc, files) {
        Ok(workspace) => is_workspace && workspace.files().len() == files.len(),
        Err(refused) => !is_workspace && refused == WorkspaceRefused::Illegal,
    }
}

/// Two paths, and whether they are those of a workspace: among others a path twice, an upper case,
/// an empty path, an empty segment, a path from the root, the folder above, and a space.
const ROWS: &str = "a/BUILD,a/b.bzl,yes
a,a,no
a,A,yes
a,,no
a,a//b,no
a,/a,no
a,a/../b,no
a,a b,no";

/// The three parts of a row.
fn parts(row: &str) -> Option<(&str, &str, &str)> {
    let (first, rest) = row.split_once(',')?;
    let (second, want) = rest.split_once(',')?;
    Some((first, second, want))
}

/// Whether the paths of a row are a workspace's as it says.
fn is_so(alloc: Global, row: &str) -> bool {
    match parts(row) {
        Some((first, second, want)) => {
            is_made(alloc, &[(first, ""), (second, "x")], want == "yes")
        }
        None => false,
    }
}

#[test]
fn workspaces_are_made(rt: HostRuntime) {
    for row in ROWS.lines() {
        assert!(rt; is_so(rt.alloc(), row), "{row}");
    }
}

#[test]
fn the_longest_path_and_text_are_taken(rt: HostRuntime) -> Result<(), Fail> {
    let alloc = rt.alloc();
    for (over, is_workspace) in [(0, true), (1, false)] {
        let path = long_text(alloc, PATH_LIMIT + over)?;
        assert!(rt; is_made(alloc, &[("a", ""), (path.as_str(), "")], is_workspace));
        let text = long_text(alloc, TEXT_LIMIT + over)?;
        assert!(rt; is_made(alloc, &[("a", ""), ("b", text.as_str())], is_workspace));
    }
    Ok(())
}

#[test]
fn files_keep_their_order_and_texts(rt: HostRuntime) -> Result<(), Fail> {
    let alloc = rt.alloc();
    let Ok(workspace) = Workspace::new(alloc, &[("b", "x = 1\n"), ("a/BUILD", "")]) else {
        return Err(Fail::from("a workspace is made"));
    };
    let [first, second] = workspace.files() else {
        return Err(Fail::from("it has two files"));
    };
    assert!(rt; first.path.as_str() == "b" && first.text.as_str() == "x = 1\n");
    assert!(rt; second.path.as_str() == "a/BUILD" && second.text.is_empty());
    Ok(())
}
