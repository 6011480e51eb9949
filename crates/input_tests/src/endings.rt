//! Exit statuses.

use crate::trees::Tree;
use fakes::tapes::{Failing, Page};
use pack_host::status;
use packing::{PackStop, pack};
use std::alloc::Global;

/// The status of a folder of one file that is packed to a page whose call of this number fails, and
/// what was written.
fn ended(alloc: Global, failing: Option<u64>) -> (u8, usize) {
    let tree = Tree { lines: "f BUILD=x" };
    let mut page = Page::new(alloc, 4, failing, Failing::Stalled);
    let packed = pack(&tree, alloc, false, &mut page);
    (status(&packed), page.bytes.len())
}

#[test]
fn a_failed_write_is_a_failed_device(rt: HostRuntime) {
    let alloc = rt.alloc();
    for (failing, wanted) in [
        (None, (0, 15)),
        (Some(0), (4, 0)),
        (Some(1), (4, 4)),
        (Some(3), (4, 12)),
    ] {
        assert!(rt; ended(alloc, failing) == wanted);
    }
    assert!(rt; status(&Err(PackStop::TooLong(Vec::new(alloc)))) == 2);
    assert!(rt; status(&Err(PackStop::NoMemory)) == 3);
}
