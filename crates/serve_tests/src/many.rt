//! The report on forty targets, some of which fail or are on a cycle: by numbers of workers, and on
//! a page that is too small.
use crate::asked::ends;
use fakes::tapes::{Failing, Page};
use serve::ServeStop;
use std::alloc::AllocError;
use std::sync::Wait;
use std::test::Fail;
use std::thread::Threads;

/// Forty targets, as JSON spells them. One fails, one needs itself, and each from the fourth on
/// needs the one of a third of its number; each file is that of two.
const FORTY: &str =
    "load(':w.bzl', 'w')\\n[w(name = 't' + str(k), out = '' if k == 1 else 'o' + str(k // 2), deps = [] if k < 3 else [':t10'] if k == 10 else [':t' + str(k // 3)]) for k in range(40)]\\n";

/// Labels that lead to all of them.
const LABELS: &str =
    "//a:t39 //a:t38 //a:t37 //a:t36 //a:t35 //a:t34 //a:t33 //a:t32 //a:t31 //a:t30 //a:t29 //a:t28 //a:t27 //a:t26 //a:t25 //a:t24 //a:t23 //a:t22 //a:t21 //a:t20 //a:t19 //a:t18 //a:t17 //a:t16 //a:t15 //a:t14 //a:t13 //a:t2 //a:t1 //a:t0";

/// The beginning of the report on them.
const BEGINNING: &str = "target //a:t0 ok
  provider DefaultInfo files=depset(default, [<file a/o0>])
  action FileWrite outputs [\"a/o0\"] inputs [] words [] content \"t0\"
target //a:t1 failed implementation fail \"no\" at a/w.bzl:3
target //a:t10 failed cycle
target //a:t11 failed dependency failed //a:t3
";

/// How a request for them ends, by so many workers.
fn served<R: Threads + Wait + Sync + AllocGlobal>(
    rt: &R,
    workers: u64,
    page: &mut Page,
) -> Result<Result<bool, ServeStop>, AllocError> {
    let words = format!(in rt.alloc(); "bzlan --workers {workers} {LABELS}")?;
    ends(rt, words.as_str(), FORTY, page)
}

#[test]
fn one_report_on_forty_by_any_workers(rt: HostRuntime) -> Result<(), Fail> {
    let mut first = Page::new(rt.alloc(), 4096, None, Failing::Interrupted);
    assert!(rt; served(&rt, 1, &mut first)? == Ok(true));
    assert!(rt; first.bytes.as_slice().starts_with(BEGINNING.as_bytes()));
    for workers in [2u64, 5, 64] {
        let mut page = Page::new(rt.alloc(), 4096, None, Failing::Interrupted);
        assert!(rt; served(&rt, workers, &mut page)? == Ok(true), "{workers}");
        assert!(rt;
            page.bytes.as_slice() == first.bytes.as_slice(),
            "{workers}"
        );
    }
    Ok(())
}

#[test]
fn a_page_that_is_too_small_has_a_beginning(rt: HostRuntime) -> Result<(), Fail> {
    let mut whole = Page::new(rt.alloc(), 500, None, Failing::Interrupted);
    assert!(rt; served(&rt, 2, &mut whole)? == Ok(true));
    for call in [1u64, 3, 6] {
        let mut page = Page::new(rt.alloc(), 500, Some(call), Failing::Stalled);
        assert!(rt;
            served(&rt, 5, &mut page)? == Err(ServeStop::Write),
            "{call}"
        );
        let is_full = page.bytes.len() as u64 == call.saturating_mul(500);
        let is_beginning = whole.bytes.as_slice().starts_with(page.bytes.as_slice());
        assert!(rt; is_full && is_beginning, "{call}");
    }
    Ok(())
}
