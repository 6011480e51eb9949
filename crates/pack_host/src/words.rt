//! The words of the command line.

ghost use Rattle.std.specs.Prelude.{◌≡◌, ◌≢◌, IfErr, IfOk, None, Some, false, map};
ghost use Rattle.clap.specs.Words.{FailsBy, app_of, fault_of, found_of, kind_of, one_of, rows_of};
ghost use Rattle.clap.specs.Words.{rule_of};
ghost use Rattle.clap.specs.declared.error.kind.ErrorKind.TheVariants as kind;
ghost use Rattle.pack_host.specs.CommandLine.{asked, asked_by, command_line, is_set, root_rule};
ghost use Rattle.pack_host.specs.CommandLine.{strict_rule};

use clap::{Arg, ArgAction, ArgMatches, Command, Error};
use std::alloc::{AllocError, Global};
use std::convert::AsStr;

/// What the words ask for.
#[derive(Clone, Copy)]
pub struct PackWords<'a> {
    /// The folder, the current one where none is given.
    pub root: &'a str,
    /// Whether nothing may be left out.
    pub strict: bool,
}

/// `--root DIR`.
fn root_argument<'a>(alloc: Global) -> Arg<'a>
    ensures rule { rule_of result ≡ root_rule }
    ensures local { result.global ≡ false }
{
    Arg::new(alloc, "root")
        .long("root")
        .value_name("DIR")
        .default_value(".")
        .help("The workspace's folder")
}

/// `--strict`.
fn strict_argument<'a>(alloc: Global) -> Arg<'a>
    ensures rule { rule_of result ≡ strict_rule }
    ensures local { result.global ≡ false }
{
    Arg::new(alloc, "strict")
        .long("strict")
        .action(ArgAction::SetTrue)
        .help("Write nothing and end with status 1 if anything is left out")
}

/// The whole command.
fn command<'a>(alloc: Global) -> Result<Command<'a>, AllocError>
    ensures { IfOk result (λ c. app_of c ≡ command_line) }
{
    Command::new(alloc, "bzlan_pack")
        .version("0.1.0")
        .about("Packs a folder into the input of bzlan: a JSON array of pairs of a path and a text")
        .arg(root_argument(alloc))?
        .arg(strict_argument(alloc))
}

/// Whether a flag is set.
fn is_set(matches: &ArgMatches<'_>, id: &str) -> bool
    ensures { result ≡ is_set (one_of id.now (rows_of (found_of matches.now))) }
{
    matches.get_one::<bool>(id).unwrap_or(false)
}

/// What the words ask for. The first word is the program's name, whatever it is.
///
/// # Errors
///
/// What `clap` says of words that the command doesn't take, and its texts for `--help` and
/// `--version`.
pub fn read_pack_words<'a, S: AsStr>(alloc: Global, words: &'a [S]) -> Result<PackWords<'a>, Error>
    ensures ok { IfOk result (λ w. asked (map S.text words.entry.now) ≡ Some (asked_by w)) }
    ensures refused { IfErr result (λ e. kind_of e ≢ kind.OutOfMemory
        → asked (map S.text words.entry.now) ≡ None) }
    ensures kinds { FailsBy (fault_of command_line (map S.text words.entry.now)) result }
{
    let matches = command(alloc)?.try_get_matches_from(words)?;
    Ok(PackWords {
        root: matches.get_str("root").unwrap_or("."),
        strict: is_set(&matches, "strict"),
    })
}
