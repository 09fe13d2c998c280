//! The command line: the command, as it is made for `clap`, and the options that it matches.

ghost use Rattle.std.specs.Prelude.{◌≡◌, ◌≢◌, IfOk, false, Some, None, map, codes, IsErrOf, string_bytes, option_and_then, option_map};
ghost use Rattle.clap.specs.Words.{App, app_of, rule_of, with_rule, one_of, first_of, found_of, rows_of};
ghost use Rattle.hg_words.specs.Line.{command_line, placed_line, engine_line, mode_rule, seed_rule, number_rule};
ghost use Rattle.hg_words.specs.declared.options.WordsRefusal.TheVariants.{Usage};
ghost use Rattle.clap.specs.declared.error.kind.ErrorKind.TheVariants.{OutOfMemory};
ghost use Rattle.hg_words.specs.Options.{AreWithin, options_of, options_in, command_of, number_of};

use crate::options::{Command, Options, WordsRefusal};
use clap::error::ErrorKind;
use clap::{Arg, ArgMatches, value_parser};
use std::alloc::{AllocError, Global};

fn mode_argument<'a>(alloc: Global) -> Arg<'a>
    ensures rule { rule_of result ≡ mode_rule }
    ensures local { result.global ≡ false }
{
    Arg::new(alloc, "mode").required(true)
}

fn seed_argument<'a>(alloc: Global) -> Arg<'a>
    ensures rule { rule_of result ≡ seed_rule }
    ensures local { result.global ≡ false }
{
    Arg::new(alloc, "seed").value_parser(value_parser!(u64))
}

// An option that takes a number from `low` to `high`. The value is the one that it has if it is not given.
fn number_argument<'a>(alloc: Global, name: &'a str, low: u32, high: u32, value: &'a str) -> Arg<'a>
    ensures rule { rule_of result ≡ number_rule name.entry.now low high value.entry.now }
    ensures local { result.global ≡ false }
{
    let range = i64::from(low)..=i64::from(high);
    Arg::new(alloc, name)
        .long(name)
        .value_parser(value_parser!(u64).range(range))
        .default_value(value)
}

// The command with one argument more, if there is a command.
fn with_argument<'a>(
    line: Result<clap::Command<'a>, AllocError>,
    argument: Arg<'a>,
) -> Result<clap::Command<'a>, AllocError>
    requires local { argument.global ≡ false }
    ensures { (app : App) → IfOk line.entry (λ c. app_of c ≡ app) →
        IfOk result (λ c. app_of c ≡ with_rule app (rule_of argument.entry)) }
{
    line?.arg(argument)
}

// The command with its positionals.
fn placed<'a>(alloc: Global) -> Result<clap::Command<'a>, AllocError>
    ensures { IfOk result (λ c. app_of c ≡ placed_line) }
{
    let bare = clap::Command::new(alloc, "hybridgc").no_binary_name(true);
    let line = with_argument(Ok(bare), mode_argument(alloc));
    with_argument(line, seed_argument(alloc))
}

// The command with the options that an engine is opened with, too.
fn for_engine<'a>(alloc: Global) -> Result<clap::Command<'a>, AllocError>
    ensures { IfOk result (λ c. app_of c ≡ engine_line) }
{
    let buckets = number_argument(alloc, "buckets", 1, 1024, "64");
    let line = with_argument(placed(alloc), buckets);
    let long = number_argument(alloc, "long", 1, 1_048_576, "4");
    with_argument(line, long)
}

/// The one command, without subcommands.
pub(crate) fn line<'a>(alloc: Global) -> Result<clap::Command<'a>, AllocError>
    ensures { IfOk result (λ c. app_of c ≡ command_line) }
{
    let rounds = number_argument(alloc, "rounds", 0, 1000, "8");
    let line = with_argument(for_engine(alloc), rounds);
    let sweepers = number_argument(alloc, "sweepers", 1, 16, "1");
    with_argument(line, sweepers)
}

fn long_number(matches: &ArgMatches, id: &str) -> Option<u64>
    ensures { result ≡
        option_and_then (number_of 64) (one_of id.now (rows_of (found_of matches.now))) }
{
    matches.get_one::<u64>(id)
}

fn short_number(matches: &ArgMatches, id: &str) -> Option<u32>
    ensures { result ≡
        option_and_then (number_of 32) (one_of id.now (rows_of (found_of matches.now))) }
{
    matches.get_one::<u32>(id)
}

fn mode_of<'a>(matches: &ArgMatches<'a>) -> Option<&'a str>
    ensures { option_map (λ s. s.now) result ≡
        first_of (codes "mode") (rows_of (found_of matches.now)) }
{
    matches.get_str("mode")
}

// The command of a mode that takes no seed.
fn without_seed(mode: &str) -> Option<Command>
    ensures { result ≡ command_of mode.now None }
{
    if mode == "replay" {
        return Some(Command::Replay);
    }
    if mode == "run" {
        return Some(Command::Run);
    }
    if mode == "audit" {
        return Some(Command::Audit);
    }
    (mode == "dump").then_some(Command::Dump)
}

fn command_from(mode: &str, seed: Option<u64>) -> Option<Command>
    ensures { result ≡ command_of mode.now seed }
{
    match seed {
        None => without_seed(mode),
        Some(seed) => (mode == "load").then_some(Command::Load(seed)),
    }
}

fn command_in(mode: Option<&str>, seed: Option<u64>) -> Option<Command>
    ensures { result ≡
        option_and_then (λ m. command_of m seed) (option_map (λ s. s.now) mode.entry) }
{
    command_from(mode?, seed)
}

fn options_from(matches: &ArgMatches) -> Option<Options>
    ensures { result ≡ options_in (rows_of (found_of matches.now)) }
{
    let seed = long_number(matches, "seed");
    let command = command_in(mode_of(matches), seed)?;
    let buckets = short_number(matches, "buckets")?;
    let long = long_number(matches, "long")?;
    let rounds = short_number(matches, "rounds")?;
    let sweepers = short_number(matches, "sweepers")?;
    Some(Options {
        command,
        buckets,
        long,
        rounds,
        sweepers,
    })
}

fn refusal_of(fault: ErrorKind) -> WordsRefusal
    ensures { result ≡ Usage → fault ≢ OutOfMemory }
{
    match fault {
        ErrorKind::OutOfMemory => WordsRefusal::NoMemory,
        _ => WordsRefusal::Usage,
    }
}

/// Reads the words. The bounds of each number, and its value if the option is not given, are in the crate's head.
pub fn read_words(alloc: Global, words: &[String]) -> Result<Options, WordsRefusal>
    ensures taken { IfOk result
        (λ options. options_of (map string_bytes words.now) ≡ Some options) }
    ensures bounds { IfOk result AreWithin }
    ensures usage { IsErrOf result Usage → options_of (map string_bytes words.now) ≡ None }
{
    match line(alloc)?.try_get_matches_from(words) {
        Ok(matches) => match options_from(&matches) {
            Some(options) => Ok(options),
            None => Err(WordsRefusal::Usage),
        },
        Err(error) => Err(refusal_of(error.kind())),
    }
}
