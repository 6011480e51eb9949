//! A folder of the system, with links and a chain of folders.

use fakes::tapes::{Failing, Page};
use pack_host::HostFolder;
use packing::{PackStop, Packed, pack};
use request::{INPUT_LIMIT, read_workspace};
use std::alloc::Global;
use std::fs;
use std::test::Fail;

/// Whether a folder was packed to a module and a package, of which one thing was left out, and is
/// read back.
fn is_so(alloc: Global, packed: Result<Packed, PackStop>, page: Page) -> bool {
    let wanted = b"[[\"a/BUILD\",\"x = 1\\n\"],[\"a/b/c/f.bzl\",\"\"]]".as_slice();
    match packed {
        Ok(packed) => {
            packed.left.len() == 1
                && page.bytes.as_slice() == wanted
                && read_workspace(alloc, page.bytes).is_ok()
        }
        Err(_) => false,
    }
}

#[test]
fn folders_of_the_system_are_packed(rt: HostRuntime) -> Result<(), Fail> {
    let alloc = rt.alloc();
    let root = "packing_tests_folder";
    let _ = fs::remove_dir_all(&rt, root);
    fs::create_dir_all(&rt, "packing_tests_folder/a/b/c")?;
    fs::create_dir_all(&rt, "packing_tests_folder/.hidden")?;
    fs::write(&rt, "packing_tests_folder/a/BUILD", "x = 1\n")?;
    fs::write(&rt, "packing_tests_folder/a/b/c/f.bzl", "")?;
    fs::write(&rt, "packing_tests_folder/a/b/c/no name", "")?;
    fs::write(&rt, "packing_tests_folder/.hidden/BUILD", "")?;
    std::os::unix::fs::symlink(&rt, "a", "packing_tests_folder/link")?;
    let mut page = Page::new(alloc, INPUT_LIMIT, None, Failing::Interrupted);
    let folder = HostFolder::new(&rt, root);
    let packed = pack(&folder, alloc, false, &mut page);
    let is_so = is_so(alloc, packed, page);
    fs::remove_dir_all(&rt, root)?;
    assert!(rt; is_so);
    Ok(())
}
