//! How many labels are served: one target, and as many that it depends on and that aren't there.
use crate::asked::ends;
use fakes::tapes::{Failing, Page};
use serve::ServeStop;
use std::alloc::AllocError;
use std::sync::Wait;
use std::test::Fail;
use std::thread::Threads;

/// How a request for a target with so many dependencies ends.
fn served<R: Threads + Wait + Sync + AllocGlobal>(
    rt: &R,
    dependencies: u64,
    page: &mut Page,
) -> Result<Result<bool, ServeStop>, AllocError> {
    let build = format!(in rt.alloc();
        "load(':w.bzl', 'w')\\nw(name = 'x', deps = [':t' + str(k) for k in range({dependencies})])\\n"
    )?;
    ends(
        rt,
        "bzlan --workers 2 --steps 1000000000 //a:x",
        build.as_str(),
        page,
    )
}

#[test]
fn labels_have_a_report(rt: HostRuntime) -> Result<(), Fail> {
    let mut page = Page::new(rt.alloc(), 1_048_576, None, Failing::Interrupted);
    assert!(rt; served(&rt, 65_536, &mut page)? == Ok(true));
    let told = page.bytes.as_slice();
    let is_begun = told.starts_with(b"target //a:t0 failed no such target\ntarget //a:t1 failed ");
    let is_whole = told.ends_with(b" //a:t65534 //a:t65535\n");
    assert!(rt; is_begun && is_whole);
    Ok(())
}

#[test]
fn more_labels_than_an_answer_may_have_are_refused(rt: HostRuntime) -> Result<(), Fail> {
    let mut page = Page::new(rt.alloc(), 4096, None, Failing::Interrupted);
    assert!(rt; served(&rt, 1_048_576, &mut page)? == Err(ServeStop::TooMany));
    assert!(rt; page.calls == 0);
    Ok(())
}
