//! The analysis of a workspace in memory, by numbers of workers and past gates.
use crate::asked::{input, split};
use fakes::gates::{Counting, Meeting};
use pool::{Gate, NoGate};
use request::read_workspace;
use serve::{AnalyseStop, analyse};
use std::alloc::Global;
use std::sync::Wait;
use std::test::Fail;
use std::thread::Threads;
use workspace::Label;

/// Three targets, of which one needs the others, as JSON spells them.
const THREE: &str =
    "load(':w.bzl', 'w')\\nw(name = 'z', out = 'z.txt')\\nw(name = 'y', out = 'y.txt')\\nw(name = 'x', out = 'x.txt', deps = [':y', ':z'])\\n";

/// The report on the one.
const REPORT: &str = "target //a:x ok
  provider DefaultInfo files=depset(default, [<file a/x.txt>])
  action FileWrite outputs [\"a/x.txt\"] inputs [] words [] content \"x\"
target //a:y ok
  provider DefaultInfo files=depset(default, [<file a/y.txt>])
  action FileWrite outputs [\"a/y.txt\"] inputs [] words [] content \"y\"
target //a:z ok
  provider DefaultInfo files=depset(default, [<file a/z.txt>])
  action FileWrite outputs [\"a/z.txt\"] inputs [] words [] content \"z\"
";

/// Labels, which a space parts.
fn labels_of(alloc: Global, text: &str) -> Result<Vec<Label>, Fail> {
    let mut labels = Vec::new(alloc);
    for text in split(alloc, text)? {
        let Ok(label) = Label::read(alloc, text, None) else {
            return Err(Fail::from("a label is read"));
        };
        labels.push(label)?;
    }
    Ok(labels)
}

/// The bytes of the report on labels, by so many workers past a gate; or why there is none.
fn analysed<R: Threads + Wait + Sync + AllocGlobal, G: Gate>(
    rt: &R,
    labels: &str,
    workers: u64,
    gate: &G,
) -> Result<Result<Vec<u8>, AnalyseStop>, Fail> {
    let alloc = rt.alloc();
    let labels = labels_of(alloc, labels)?;
    let input = input(alloc, THREE)?;
    let Ok(workspace) = read_workspace(alloc, input.into_bytes()) else {
        return Err(Fail::from("an input is read"));
    };
    let labels = labels.as_slice();
    Ok(analyse(rt, alloc, &workspace, labels, workers, 1_000_000, gate))
}

/// Whether the report on the one is as above.
fn is_told<R: Threads + Wait + Sync + AllocGlobal, G: Gate>(
    rt: &R,
    workers: u64,
    gate: &G,
) -> Result<bool, Fail> {
    match analysed(rt, "//a:x", workers, gate)? {
        Ok(report) => Ok(report.as_slice() == REPORT.as_bytes()),
        Err(_) => Ok(false),
    }
}

#[test]
fn too_few_and_too_many_workers(rt: HostRuntime) -> Result<(), Fail> {
    for workers in [0u64, 65, u64::MAX] {
        let stop = analysed(&rt, "//a:x", workers, &NoGate)?.err();
        assert!(rt; stop == Some(AnalyseStop::Workers), "{workers}");
    }
    Ok(())
}

#[test]
fn one_report_by_any_workers(rt: HostRuntime) -> Result<(), Fail> {
    for workers in [1u64, 2, 64] {
        assert!(rt; is_told(&rt, workers, &NoGate)?, "{workers}");
        let gate = Counting::of(rt.alloc(), 3)?;
        assert!(rt; is_told(&rt, workers, &gate)?, "{workers}");
        assert!(rt; gate.once(), "{workers}");
    }
    Ok(())
}

#[test]
fn two_targets_at_once(rt: HostRuntime) -> Result<(), Fail> {
    for workers in [2u64, 64] {
        let gate = Meeting::of(0, 1, 2);
        assert!(rt;
            analysed(&rt, "//a:y //a:z", workers, &gate)?.is_ok(),
            "{workers}"
        );
        assert!(rt; gate.met(), "{workers}");
    }
    Ok(())
}
