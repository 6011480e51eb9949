//! A frozen value in two threads, by a name each.
use plain::Text;
use printing::text;
use std::alloc::Global;
use std::test::Fail;
use std::thread;
use std::thread::Threads;
use values::{Branch, Frozen, Key};

/// Whether the text of the value is this one.
fn prints(alloc: Global, value: &Frozen, want: &str) -> bool {
    match text(alloc, value) {
        Ok(found) => found.as_str() == want,
        Err(_) => false,
    }
}

/// Each value in a thread of its own.
fn moved<R: Threads + Sync>(
    rt: &R,
    alloc: Global,
    a: Frozen,
    b: Frozen,
    want: &str,
) -> (bool, bool) {
    thread::join(
        rt,
        move || prints(alloc, &a, want),
        move || prints(alloc, &b, want),
    )
}

#[test]
fn frozen_value_in_two_threads(rt: HostRuntime) -> Result<(), Fail> {
    let alloc = rt.alloc();
    let item = Frozen::of_key(Key::Text(Text::new(alloc, "a")?));
    let list = Frozen::of_branch(Branch::list(alloc, Vec::from_array(alloc, [item])?)?);
    let other = list.share()?;
    assert!(rt; moved(&rt, alloc, list, other, "[\"a\"]") == (true, true));
    Ok(())
}
