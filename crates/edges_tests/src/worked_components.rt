//! A graph with a cycle in its middle.
use crate::component_graphs::{found, rows_of};
use edges::NodeId;
use std::test::Fail;

/// 0 leads to 1; 1, 2 and 3 lead round; 3 leads to 4, and 5 to itself.
const WORKED: [&[usize]; 6] = [&[1], &[2], &[3], &[1, 4], &[], &[5]];

#[test]
fn a_cycle_is_one_component(rt: HostRuntime) -> Result<(), Fail> {
    let alloc = rt.alloc();
    let Some(found) = found(alloc, rows_of(alloc, &WORKED)?)? else {
        panic!(rt; "a dependency is no node")
    };
    let want = [false, true, true, true, false, true];
    for (n, on) in want.iter().enumerate() {
        assert!(rt; n < found.deps().len());
        assert!(rt; found.on_cycle(NodeId::of(n)) == *on, "{n}");
    }
    Ok(())
}

#[test]
fn what_is_no_node_is_told(rt: HostRuntime) -> Result<(), Fail> {
    let alloc = rt.alloc();
    assert!(rt; found(alloc, rows_of(alloc, &[&[1]])?)?.is_none());
    Ok(())
}
