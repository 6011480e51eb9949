//! The words of the command line.

ghost use Rattle.std.specs.Prelude.{◌≤◌, ◌≡◌, IfOk, IfSome, None, Some, false, true, Err, map};
ghost use Rattle.clap.specs.Walk.{is_empty};
ghost use Rattle.clap.specs.Words.{fault_of, app_of, found_of, rows_of, rule_of};
ghost use Rattle.clap.specs.declared.builder.value_parser.ValueParser.TheVariants as vp;
ghost use Rattle.request.specs.Asked.{asked, asked_by, each_label, written_by};
ghost use Rattle.request.specs.CommandLine.{Takes, command_line, texts_of, labels_rule};
ghost use Rattle.request.specs.CommandLine.{steps_of, steps_rule, workers_of, workers_rule};
ghost use Rattle.request.specs.CommandLine.{written};

use clap::builder::ValueParser;
use clap::error::ErrorKind;
use clap::{Arg, ArgMatches, Command, value_parser};
use parallel::Workers;
use std::alloc::{AllocError, Global};
use std::convert::AsStr;
use workspace::{Label, LabelRefused};

/// What the words ask for.
#[derive(Drop)]
pub struct Request {
    /// The number of workers.
    pub workers: Workers,
    /// The limit of steps for each evaluation, from 1 to 1,000,000,000; 1,000,000 where none is
    /// given.
    pub steps: u64,
    /// The labels, in the order of the words; one that is given twice stands twice.
    pub labels: Vec<Label>,
}

/// Why the words ask for nothing.
#[derive(Clone, Copy, Debug, PartialEq, Eq)]
pub enum WordsStop {
    /// The command doesn't take the words, or a label is illegal.
    Words,
    /// Memory was refused.
    NoMemory,
}

/// What the command takes from the words.
#[derive(Drop)]
struct Taken<'a> {
    workers: Workers,
    steps: u64,
    labels: Vec<&'a str>,
}

/// The numbers from 1 to 64.
fn worker_numbers<'a>() -> ValueParser<'a>
    ensures { result ≡ vp.Unsigned 1 64 }
{
    value_parser!(u64).range(1..=64)
}

/// The numbers from 1 to 1,000,000,000.
fn step_numbers<'a>() -> ValueParser<'a>
    ensures { result ≡ vp.Unsigned 1 1000000000 }
{
    value_parser!(u64).range(1..=1_000_000_000)
}

/// `--workers N`.
fn workers_argument<'a>(alloc: Global) -> Arg<'a>
    ensures rule { rule_of result ≡ workers_rule }
    ensures local { result.global ≡ false }
{
    Arg::new(alloc, "workers")
        .long("workers")
        .required(true)
        .value_parser(worker_numbers())
}

/// `--steps S`.
fn steps_argument<'a>(alloc: Global) -> Arg<'a>
    ensures rule { rule_of result ≡ steps_rule }
    ensures local { result.global ≡ false }
{
    Arg::new(alloc, "steps")
        .long("steps")
        .default_value("1000000")
        .value_parser(step_numbers())
}

/// `LABEL..`.
fn labels_argument<'a>(alloc: Global) -> Arg<'a>
    ensures rule { rule_of result ≡ labels_rule }
    ensures local { result.global ≡ false }
{
    Arg::new(alloc, "labels").num_args(0..)
}

/// The whole command.
fn command<'a>(alloc: Global) -> Result<Command<'a>, AllocError>
    ensures { IfOk result (λ c. app_of c ≡ command_line) }
{
    Command::new(alloc, "bzlan")
        .arg(workers_argument(alloc))?
        .arg(steps_argument(alloc))?
        .arg(labels_argument(alloc))
}

/// The limit of steps, where it is one.
///
/// The command has refused all others before, but no contract of `clap` says so of the number that
/// it reads.
fn steps(matches: &ArgMatches<'_>) -> Option<u64>
    ensures within { IfSome result (λ n. (1 ≤ n) × (n ≤ 1000000000)) }
    ensures value { result ≡ steps_of (rows_of (found_of matches.now)) }
{
    match matches.get_one::<u64>("steps") {
        Some(n) if 1 <= n && n <= 1_000_000_000 => Some(n),
        _ => None,
    }
}

/// The number of workers, where it is one. As with [`steps`], the command has refused all others.
fn workers(matches: &ArgMatches<'_>) -> Option<Workers>
    ensures within { IfSome result (λ w. (1 ≤ w) × (w ≤ 64)) }
    ensures value { result ≡ workers_of (rows_of (found_of matches.now)) }
{
    let count = matches.get_one::<u64>("workers")?;
    Workers::new(count)
}

/// The texts that stand for labels.
fn texts<'a>(alloc: Global, matches: &ArgMatches<'a>) -> Result<Vec<&'a str>, AllocError>
    ensures { IfOk result (λ v. map (λ s. s.now) v.items
        ≡ texts_of (rows_of (found_of matches.now))) }
{
    match matches.get_raw("labels") {
        Some(texts) => copied(alloc, texts),
        None => Ok(Vec::new(alloc)),
    }
}

/// The same texts in a list of its own.
fn copied<'a>(alloc: Global, texts: &[&'a str]) -> Result<Vec<&'a str>, AllocError>
    ensures { IfOk result (λ v. v.items ≡ texts.now) }
{
    texts.iter().copied().collect(alloc)
}

/// What the command takes the words for.
fn matches<'a, S: AsStr>(alloc: Global, words: &'a [S]) -> Result<ArgMatches<'a>, WordsStop>
    ensures ok { IfOk result (λ m. Takes (map S.text words.entry.now) (rows_of (found_of m))) }
    ensures refused { result ≡ Err WordsStop.Words
        → is_empty (fault_of command_line (map S.text words.entry.now)) ≡ false }
{
    let Ok(command) = command(alloc) else {
        return Err(WordsStop::NoMemory);
    };
    match command.try_get_matches_from(words) {
        Ok(matches) => Ok(matches),
        Err(error) => match error.kind() {
            ErrorKind::OutOfMemory => Err(WordsStop::NoMemory),
            _ => Err(WordsStop::Words),
        },
    }
}

/// What the command takes from the words, before the labels are read.
fn take_words<'a, S: AsStr>(alloc: Global, words: &'a [S]) -> Result<Taken<'a>, WordsStop>
    ensures ok { IfOk result (λ r. written (map S.text words.entry.now) ≡ Some (written_by r)) }
    ensures workers { IfOk result (λ r. (1 ≤ r.workers) × (r.workers ≤ 64)) }
    ensures steps { IfOk result (λ r. (1 ≤ r.steps) × (r.steps ≤ 1000000000)) }
    ensures words_only { result ≡ Err WordsStop.Words
        → written (map S.text words.entry.now) ≡ None }
{
    let matches = match matches(alloc, words) {
        Ok(matches) => matches,
        Err(stop) => return Err(stop),
    };
    let Some(workers) = workers(&matches) else {
        return Err(WordsStop::Words);
    };
    let Some(steps) = steps(&matches) else {
        return Err(WordsStop::Words);
    };
    match texts(alloc, &matches) {
        Ok(labels) => Ok(Taken {
            workers,
            steps,
            labels,
        }),
        Err(_) => Err(WordsStop::NoMemory),
    }
}

/// The labels that texts are without a package.
fn read_labels(alloc: Global, texts: &[&str]) -> Result<Vec<Label>, LabelRefused>
    ensures ok { IfOk result (λ v. each_label (map (λ s. s.now) texts.now) ≡ Some v.items) }
    ensures illegal { result ≡ Err LabelRefused.Illegal
        → each_label (map (λ s. s.now) texts.now) ≡ None }
{
    let mut labels = Vec::new(alloc);
    for text in texts {
        let label = match Label::read(alloc, text, None) {
            Ok(label) => label,
            Err(refused) => return Err(refused),
        };
        match labels.push(label) {
            Ok(()) => {}
            Err(_) => return Err(LabelRefused::NoMemory),
        }
    }
    Ok(labels)
}

/// What the words ask for. The first word is the program's name, whatever it is.
///
/// # Errors
///
/// `Words` where the command doesn't take the words, `--help` and `--version` among them, or where
/// a label is illegal without a package; `NoMemory` where memory was refused.
pub fn read_words<S: AsStr>(alloc: Global, words: &[S]) -> Result<Request, WordsStop>
    ensures ok { IfOk result (λ r. asked (map S.text words.now) ≡ Some (asked_by r)) }
    ensures workers { IfOk result (λ r. (1 ≤ r.workers) × (r.workers ≤ 64)) }
    ensures steps { IfOk result (λ r. (1 ≤ r.steps) × (r.steps ≤ 1000000000)) }
    ensures words_only { result ≡ Err WordsStop.Words → asked (map S.text words.now) ≡ None }
{
    let taken = take_words(alloc, words)?;
    match read_labels(alloc, taken.labels.as_slice()) {
        Ok(labels) => Ok(Request {
            workers: taken.workers,
            steps: taken.steps,
            labels,
        }),
        Err(LabelRefused::Illegal) => Err(WordsStop::Words),
        Err(LabelRefused::NoMemory) => Err(WordsStop::NoMemory),
    }
}
