//! `bzlan`, the analysis phase of a Bazel build: words and a workspace in, a report and a status
//! out.
#![tactic(auto)]

use devices::Counted;
use pool::NoGate;
use serve::{Leftovers, ServeStop, closing, serve};
use std::process::ExitCode;
use std::{env, io};

/// The words of the command line, the program's name first.
///
/// # Errors
///
/// `Words` where one of them isn't UTF-8, and `NoMemory` where memory was refused.
fn command_line<R: env::Env + AllocGlobal>(rt: &R) -> Result<Vec<String>, ServeStop> {
    match env::args(rt) {
        Ok(words) => match words.collect(rt.alloc()) {
            Ok(words) => Ok(words),
            Err(_) => Err(ServeStop::NoMemory),
        },
        Err(error) => match error.kind() {
            io::ErrorKind::OutOfMemory => Err(ServeStop::NoMemory),
            _ => Err(ServeStop::Words),
        },
    }
}

/// Serves the request of the command line from standard input to standard output, prints the
/// closing line to standard error, where that takes it, and ends with the status.
fn main(rt: HostRuntime) -> ExitCode {
    let mut reader = Counted::new(rt.reader());
    let mut writer = Counted::new(io::writer(&rt));
    let served = match command_line(&rt) {
        Ok(words) => serve(
            &rt,
            rt.alloc(),
            &mut reader,
            &mut writer,
            words.as_slice(),
            &NoGate,
            Leftovers::Leave,
        ),
        Err(stop) => Err(stop),
    };
    let (status, line) = closing(&served);
    if !line.is_empty() {
        let _ = eprintln!(rt; "{line}");
    }
    ExitCode::from(status)
}
