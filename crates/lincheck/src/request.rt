//! What the words after the program's name ask for.
ghost use Rattle.std.specs.Prelude.{◌≡◌, ◌≤◌, ℕ, IfOk, IsTrue, codes, map, string_bytes};
ghost use Rattle.std.specs.List.{list_all};
ghost use Rattle.clap.specs.Words.{found_of, kind_of, rows_of};
ghost use Rattle.lincheck.specs.CommandLine.{AreAsked, AreInRange, GivesUpTo, HasOptions, IsArgOf, IsBareLine, IsCommandLine, IsFlagAsked, IsNumberAsked, flag, is_small, numbered, option_of};
ghost use Rattle.lincheck.specs.Request.{AnswersKind, IsAnswerTo, IsRequestOf};

use crate::help;
use crate::option_rows::{OPTION_ROWS, OptionRow};
use clap::builder::ValueParser;
use clap::error::ErrorKind;
use clap::{Arg, ArgAction, ArgMatches, Command, Error, value_parser};
use lin_workers::{MAX_LIMIT, Options};
use std::alloc::{AllocError, Global};

/// How many workers search where no number is asked for.
pub const DEFAULT_WORKERS: u64 = 4;

/// How many shards there are where no number is asked for.
pub const DEFAULT_SHARDS: u64 = 16;

/// What a user asks for.
#[derive(Debug, Drop)]
pub enum Request {
    /// A check with these options.
    Run(Options),
    /// A check with these options that says of a history that is not linearizable why.
    Explain(Options),
    /// A check with these options of each object by itself.
    Each(Options),
    /// The same that says of each object that is not linearizable why.
    ExplainEach(Options),
    /// This text, which says how the program is used.
    Help(String),
    /// This text, which says the program's name and version.
    Version(String),
    /// Something that can't be had, as this text says.
    Refused(String),
}

// What takes a number from 1 to the greatest, which is at most `MAX_LIMIT`.
fn from_one<'a>(greatest: u64) -> ValueParser<'a>
    requires { greatest ≤ MAX_LIMIT }
    ensures { result ≡ ValueParser.Unsigned 1 greatest }
{
    value_parser!(u64).range(1..=greatest as i64)
}

// The option of this name, which takes a number from 1 to the greatest, which is at most `MAX_LIMIT`.
fn number_option<'a>(alloc: Global, name: &'a str, greatest: u64, help: &'a str) -> Arg<'a>
    requires { greatest ≤ MAX_LIMIT }
    ensures { IsArgOf (numbered name.entry.now greatest) result }
{
    Arg::new(alloc, name)
        .long(name)
        .value_name("N")
        .value_parser(from_one(greatest))
        .help(help)
}

// The option of this name, which is given or not.
fn flag_option<'a>(alloc: Global, name: &'a str, help: &'a str) -> Arg<'a>
    ensures { IsArgOf (flag name.entry.now) result }
{
    Arg::new(alloc, name)
        .long(name)
        .action(ArgAction::SetTrue)
        .help(help)
}

// A command line without an option.
fn bare_line<'a>(alloc: Global) -> Command<'a>
    ensures { IsBareLine result }
{
    Command::new(alloc, "lincheck")
        .no_binary_name(true)
        .version(help::VERSION)
        .override_usage("lincheck [OPTIONS] < HISTORY")
        .about(help::ABOUT)
        .after_help(help::MANUAL)
}

// The argument of the option, whose number is at most `MAX_LIMIT`.
fn argument<'a>(alloc: Global, row: &OptionRow) -> Arg<'a>
    requires { IsTrue (is_small row.now.greatest) }
    ensures { IsArgOf (option_of row.now) result }
{
    match row.greatest {
        Some(greatest) => number_option(alloc, row.name, greatest, row.help),
        None => flag_option(alloc, row.name, row.help),
    }
}

// A command line with these options, whose numbers are at most `MAX_LIMIT`.
fn line_with<'a>(alloc: Global, rows: &[OptionRow]) -> Result<Command<'a>, AllocError>
    requires { IsTrue (list_all (λ row. is_small row.greatest) rows.now) }
    ensures { IfOk result (HasOptions (map option_of rows.now)) }
{
    let mut line = bare_line(alloc);
    for row in rows {
        line = line.arg(argument(alloc, row))?;
    }
    Ok(line)
}

// The command line of the program.
fn command_line<'a>(alloc: Global) -> Result<Command<'a>, AllocError>
    ensures { IfOk result IsCommandLine }
{
    line_with(alloc, OPTION_ROWS)
}

// The number that was given for the option of this name.
fn number_asked(matches: &ArgMatches<'_>, name: &str) -> Option<u64>
    ensures { (greatest : ℕ) → GivesUpTo (found_of matches.now) name.now greatest
        → IsNumberAsked (rows_of (found_of matches.now)) name.now greatest result }
{
    matches.get_one(name)
}

// Whether the option of this name was asked for, which is given or not.
fn is_asked(matches: &ArgMatches<'_>, name: &str) -> bool
    ensures { IsFlagAsked (rows_of (found_of matches.now)) name.now result }
{
    matches.get_flag(name)
}

// The options that were asked for.
fn options_asked(matches: &ArgMatches<'_>) -> Options
    requires { AreInRange (found_of matches.now) }
    ensures { AreAsked (rows_of (found_of matches.now)) result }
{
    let workers = number_asked(matches, "workers").unwrap_or(DEFAULT_WORKERS);
    let shards = number_asked(matches, "shards").unwrap_or(DEFAULT_SHARDS);
    let limit = number_asked(matches, "limit");
    let seconds = number_asked(matches, "seconds");
    let Ok(options) = Options::new(workers, shards, limit, is_asked(matches, "stats")) else {
        unreachable!()
    };
    let Ok(timed) = options.with_seconds(seconds) else {
        unreachable!()
    };
    timed.with_progress(is_asked(matches, "progress"))
}

// The request for a check with these options, with an explanation and a line for each object where that is asked for.
fn request_of(options: Options, explain: bool, each: bool) -> Request
    ensures { IsRequestOf options explain each result }
{
    match (explain, each) {
        (false, false) => Request::Run(options),
        (true, false) => Request::Explain(options),
        (false, true) => Request::Each(options),
        (true, true) => Request::ExplainEach(options),
    }
}

// What is answered where the words are none of the command line's.
fn answer_to(alloc: Global, error: &Error) -> Result<Request, AllocError>
    ensures { AnswersKind (kind_of error.now) result }
{
    let text = format!(in alloc; "{error}")?;
    match error.kind() {
        ErrorKind::OutOfMemory => Err(AllocError),
        ErrorKind::DisplayHelp => Ok(Request::Help(text)),
        ErrorKind::DisplayVersion => Ok(Request::Version(text)),
        _ => Ok(Request::Refused(text)),
    }
}

/// What the words after the program's name ask for: `--workers N` (1 to `MAX_WORKERS`, 4 where absent), `--shards N` (1
/// to `MAX_SHARDS`, 16), `--limit N` (1 to `MAX_LIMIT`, none), `--seconds N` (1 to `MAX_SECONDS`, none), `--stats`, `--explain`, `--each`, `--progress`, each at most once and in any order; or
/// `--help`, or `--version`. Each number is read as a `u64`. Any other words are refused.
/// The texts are `clap`'s. `AllocError` where memory was refused.
pub fn options_of(alloc: Global, words: &[String]) -> Result<Request, AllocError>
    ensures { IfOk result (IsAnswerTo (map string_bytes words.entry.now)) }
{
    match command_line(alloc)?.try_get_matches_from(words) {
        Ok(matches) => Ok(request_of(
            options_asked(&matches),
            is_asked(&matches, "explain"),
            is_asked(&matches, "each"),
        )),
        Err(error) => answer_to(alloc, &error),
    }
}
