//! `bzlan_pack`: a folder in, an input of `bzlan` out.
#![tactic(auto)]

use clap::Error;
use clap::error::ErrorKind;
use devices::Counted;
use pack_host::{HostFolder, PackWords, read_pack_words, status, tell};
use packing::pack;
use std::process::ExitCode;
use std::{env, io};

/// Packs the folder that the words name, and gives the exit status.
fn run(rt: &HostRuntime, words: PackWords<'_>) -> u8 {
    let alloc = rt.alloc();
    let folder = HostFolder::new(rt, words.root);
    let mut sink = Counted::new(io::writer(rt));
    let packed = pack(&folder, alloc, words.strict, &mut sink);
    let _ = tell(rt, words.root, &packed);
    status(&packed)
}

/// Prints what the words came to where they ask for no packing, and gives the exit status.
fn refuse(rt: &HostRuntime, error: &Error) -> u8 {
    let printed = error.print(rt);
    match error.kind() {
        ErrorKind::OutOfMemory => 3,
        ErrorKind::DisplayHelp | ErrorKind::DisplayVersion => match printed {
            Ok(()) => 0,
            Err(_) => 4,
        },
        _ => 2,
    }
}

/// Why there are no words of the command line.
enum NoWords {
    /// One of them isn't UTF-8.
    NotUtf8,
    /// Memory was refused.
    NoMemory,
}

/// The words of the command line, the program's name first.
///
/// # Errors
///
/// `NotUtf8` where one of them isn't UTF-8, and `NoMemory` where memory was refused.
fn command_line<R: env::Env + AllocGlobal>(rt: &R) -> Result<Vec<String>, NoWords> {
    match env::args(rt) {
        Ok(words) => match words.collect(rt.alloc()) {
            Ok(words) => Ok(words),
            Err(_) => Err(NoWords::NoMemory),
        },
        Err(error) => match error.kind() {
            io::ErrorKind::OutOfMemory => Err(NoWords::NoMemory),
            _ => Err(NoWords::NotUtf8),
        },
    }
}

fn main(rt: HostRuntime) -> ExitCode {
    let ended = match command_line(&rt) {
        Ok(words) => match read_pack_words(rt.alloc(), words.as_slice()) {
            Ok(words) => run(&rt, words),
            Err(error) => refuse(&rt, &error),
        },
        Err(NoWords::NotUtf8) => {
            let _ = eprintln!(rt; "bzlan_pack: the words aren't UTF-8");
            2
        }
        Err(NoWords::NoMemory) => {
            let _ = eprintln!(rt; "bzlan_pack: no memory");
            3
        }
    };
    ExitCode::from(ended)
}
