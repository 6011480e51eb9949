//! What a report says, one row for each thing that may stand in it.
use crate::asked::{Wanted, input, is_served, loud};
use std::alloc::AllocError;
use std::sync::Wait;
use std::test::Fail;
use std::thread::Threads;

/// Whether that comes of labels, beside the module of the tests and a `BUILD` file, by two workers.
fn is_reported<R: Threads + Wait + Sync + AllocGlobal>(
    rt: &R,
    build: &str,
    words: &str,
    want: &Wanted,
) -> Result<bool, AllocError> {
    let input = input(rt.alloc(), build)?;
    is_served(rt, words, input.as_str(), want)
}

#[test]
fn a_cycle(rt: HostRuntime) -> Result<(), Fail> {
    let want = loud(
        "target //a:a failed cycle
target //a:b failed cycle
target //a:c ok
  provider DefaultInfo files=depset(default, [<file a/o>])
  action FileWrite outputs [\"a/o\"] inputs [] words [] content \"c\"
",
    );
    let build =
        "load(':w.bzl', 'w')\\nw(name = 'a', deps = [':a'])\\nw(name = 'b', deps = [':a'])\\nw(name = 'c', out = 'o')\\n";
    assert!(rt; is_reported(&rt, build, "bzlan --workers 2 //a:a //a:b //a:c", &want)?);
    Ok(())
}

#[test]
fn a_missing_target_and_a_source_file(rt: HostRuntime) -> Result<(), Fail> {
    let want = loud(
        "target //a:n failed no such target
source //a:w.bzl a/w.bzl
target //a:x failed dependency failed //a:n
",
    );
    let build = "load(':w.bzl', 'w')\\nw(name = 'x', out = 'o', deps = [':n'])\\n";
    assert!(rt; is_reported(&rt, build, "bzlan --workers 2 //a:x //a:w.bzl", &want)?);
    Ok(())
}

#[test]
fn a_load_fault(rt: HostRuntime) -> Result<(), Fail> {
    let want = loud(
        "load a/BUILD missing name at a/BUILD:1
target //a:x failed package failed
",
    );
    let build = "load(':w.bzl', 'v')\\nv(name = 'x')\\n";
    assert!(rt; is_reported(&rt, build, "bzlan --workers 2 //a:x", &want)?);
    Ok(())
}

#[test]
fn a_conflict(rt: HostRuntime) -> Result<(), Fail> {
    let want = loud(
        "target //a:x ok
  provider DefaultInfo files=depset(default, [<file a/o>])
  action FileWrite outputs [\"a/o\"] inputs [] words [] content \"x\"
target //a:y ok
  provider DefaultInfo files=depset(default, [<file a/o>])
  action FileWrite outputs [\"a/o\"] inputs [] words [] content \"y\"
conflict a/o //a:x //a:y
",
    );
    let build = "load(':w.bzl', 'w')\\nw(name = 'y', out = 'o')\\nw(name = 'x', out = 'o')\\n";
    assert!(rt; is_reported(&rt, build, "bzlan --workers 2 //a:y //a:x", &want)?);
    Ok(())
}

#[test]
fn a_failed_implementation(rt: HostRuntime) -> Result<(), Fail> {
    let want = loud(
        "target //a:x failed implementation fail \"no\" at a/w.bzl:3
",
    );
    let build = "load(':w.bzl', 'w')\\nw(name = 'x')\\n";
    assert!(rt; is_reported(&rt, build, "bzlan --workers 2 //a:x", &want)?);
    Ok(())
}
