//! Serves requests over memory: stored ones, whose answers are compared with what is wanted, and
//! made ones, whose answers are the same by any number of workers, and are timed.
//!
//! Without a word both are done. Standard input is a JSON array of cases. A case is an array of
//! six: its name; the words of the command line after the program's name; the input, as a text or,
//! where it is long or none, as an array of parts, which are bytes and pairs of a text with the
//! number of times that it stands there; the report that is wanted; the exit status; and the line
//! on standard error without its newline, empty where there is none. Each request is served over
//! memory as its words stand, and then, where its words aren't to be refused, by 1, 2 and 64
//! workers. For a case whose answer differs from what is wanted a line tells
//! `NAME: WHAT --workers=N`, or `NAME: WHAT` for the words as they stand, where WHAT is `report`,
//! `status` or `line`; and in the end `N of M cases agree`. Then some random workspaces are served
//! by 1 and by 8 workers, with a deque each and at one queue, and it is printed for how many the
//! reports are the same, which never changes; with `same N` that many alone.
//!
//! With `time` it prints, for made workspaces, the wall and the processor time of a request in
//! milliseconds, from the bytes of the input to those of the report, and the report's length; with
//! `time NAME`, for that one alone. `plain N`, `layers N WIDTH DEGREE`, `chain N`, `cycle N` and
//! `random SEED` print a workspace, as `bzlan` reads it.
//!
//! The status is 0 where all is as wanted, else 1, also where the input isn't of this form or the
//! words are others.
#![tactic(auto)]

mod cases;
mod differing;
mod made;
mod requests;
mod serving;
mod stored;
mod timing;
mod workloads;

use anyhow::Result;
use made::{check_few, run};
use serde_json::Value;
use std::io::Write;
use std::process::ExitCode;
use std::{env, io};
use stored::check_all;

fn main(rt: HostRuntime) -> Result<ExitCode> {
    let alloc = rt.alloc();
    let words: Vec<String> = env::args(&rt)?.collect(alloc)?;
    let mut shown: Vec<&str> = Vec::new(alloc);
    for word in words.iter().skip(1) {
        shown.push(word.as_str())?;
    }
    if !shown.is_empty() {
        let is_well = run(&rt, alloc, shown.as_slice())?;
        return Ok(ExitCode::from(if is_well { 0 } else { 1 }));
    }
    let input = io::read_to_string(alloc, rt.reader())?;
    let input = Value::from_slice(alloc, input.as_bytes())?;
    let mut out = io::writer(&rt);
    let agree = check_all(&rt, alloc, &mut out, &input)?;
    out.flush()?;
    let are_same = check_few(&rt, alloc)?;
    Ok(ExitCode::from(if agree && are_same { 0 } else { 1 }))
}
