//! Stored requests.

use crate::cases::case_of;
use crate::differing::first_difference;
use anyhow::{Result, bail};
use serde_json::Value;
use std::alloc::Global;
use std::io::Write;
use std::sync::Wait;
use std::thread::Threads;

/// Serves one case, and says whether its answers are as wanted. Where one isn't, a line is printed.
fn check<R: Threads + Wait + Sync, W: Write>(
    rt: &R,
    alloc: Global,
    out: &mut W,
    item: &Value,
) -> Result<bool> {
    let Some(case) = case_of(alloc, item)? else {
        bail!("a case isn't of this form");
    };
    match first_difference(rt, alloc, &case)? {
        None => Ok(true),
        Some(difference) => {
            let part = difference.part;
            match difference.workers {
                None => writeln!(out, "{}: {part}", case.name)?,
                Some(workers) => writeln!(out, "{}: {part} {workers}", case.name)?,
            }
            Ok(false)
        }
    }
}

/// Serves every case of the input, prints how many agree, and says whether all do.
pub fn check_all<R: Threads + Wait + Sync, W: Write>(
    rt: &R,
    alloc: Global,
    out: &mut W,
    input: &Value,
) -> Result<bool> {
    let Some(cases) = input.as_array() else {
        bail!("the input is no array");
    };
    let mut agree = 0u64;
    let mut all = 0u64;
    for case in cases {
        all = all.saturating_add(1);
        if check(rt, alloc, out, case)? {
            agree = agree.saturating_add(1);
        }
    }
    writeln!(out, "{agree} of {all} cases agree")?;
    Ok(agree == all)
}
