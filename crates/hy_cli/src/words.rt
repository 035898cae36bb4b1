//! Reads a command line.

ghost use Rattle.std.specs.Prelude.{◌≡◌, [], IfErr, IfOk, IfSome, MatchResult, codes, false, true};
ghost use Rattle.clap.specs.Faults.{fault_of, is_simple_and_free};
ghost use Rattle.clap.specs.Words.{HasKind, app_of, found_of, has_subcommand, is_simple, rows_of, subcommand_of, subcommand_rows_of};
ghost use Rattle.clap.specs.declared.builder.command.Command.TheViews.{out-Command as fields_of};
ghost use Rattle.hy_cli.specs.CommandLine.{AreTaken, HasFault, HasLimits, IsBehind, Says, SaysLine, check_parameters, first_parameters, generate_parameters, program_app, query_parameters, recover_parameters, script_parameters, serve_parameters, storm_parameters, texts_of};
ghost use Rattle.hy_cli.specs.inside.Given.{AreGiven, IsKnown};

use crate::given::{flag_given, number_given, number_or, text_given, text_or_none};
use crate::program::{MAX_FRAMES, MAX_KEPT, program};
use clap::error::ErrorKind;
use clap::{ArgMatches, Command};
use std::alloc::Global;
use thiserror::Error;

/// The amount of `first` where the words give none, in cents.
const DEFAULT_AMOUNT: u64 = 100;

/// How many frames a partition may have where the words of a `script` say nothing of it.
const DEFAULT_FRAMES: u64 = 100_000;

/// How many commits a partition may keep where the words of a `script` say nothing of it.
const DEFAULT_KEPT: u64 = 1_000_000;

/// A command line.
#[derive(Clone, Copy, Debug, PartialEq, Eq)]
pub enum Line<'a> {
    /// One payment on a generated warehouse.
    First {
        /// The amount in cents.
        amount: u64,
    },
    /// A generated database is written as files.
    Generate {
        /// The folder of the files.
        directory: &'a str,
        /// How many warehouses there are.
        warehouses: u64,
        /// How many customers each district has.
        customers: u64,
        /// How many items there are.
        items: u64,
    },
    /// The database in files is tested.
    Check {
        /// The folder of the files.
        directory: &'a str,
        /// The file of a log that is run again first, where there is one.
        log: Option<&'a str>,
    },
    /// The events of a file are run on the database in files.
    Script {
        /// The folder of the files.
        directory: &'a str,
        /// The file of events.
        file: &'a str,
        /// How many frames each partition may have, from 1 to 10,000,000.
        frames: u64,
        /// How many commits each partition may keep, from 1 to 100,000,000.
        kept: u64,
    },
    /// Events are run as they come on the database in files and its log.
    Serve {
        /// The folder of the files.
        directory: &'a str,
        /// The file of the log.
        log: &'a str,
        /// How many frames each partition may have, from 1 to 10,000,000.
        frames: u64,
        /// How many commits each partition may keep, from 1 to 100,000,000.
        kept: u64,
        /// Whether answers have the numbers of their events' lines.
        is_numbered: bool,
    },
    /// A query is answered over the database in files.
    Query {
        /// The folder of the files.
        directory: &'a str,
        /// The text of the query.
        text: &'a str,
        /// The file of a log that is run again first, where there is one.
        log: Option<&'a str>,
    },
    /// Terminals and sessions run on the database in files.
    Storm {
        /// The folder of the files.
        directory: &'a str,
        /// How many terminals there are, from 1 to 64.
        terminals: u64,
        /// How many sessions, from 0 to 16.
        sessions: u64,
        /// How many commands each terminal hands in, from 0 to 100,000.
        commands: u64,
        /// The file of the log, where there is to be one.
        log: Option<&'a str>,
    },
    /// What a log has is run again on the database in files.
    Recover {
        /// The folder of the files.
        directory: &'a str,
        /// The file of the log.
        log: &'a str,
        /// The folder that what comes of it is written to, where it is to be.
        out: Option<&'a str>,
    },
}

/// Why no command line was read.
#[derive(Debug, Drop, Error)]
pub enum LineFault {
    /// The parser of command lines refuses the words, or answers them with a text, as at `--help`. Its text is for
    /// the user.
    #[error("{0}")]
    Parser(clap::Error),
    /// Memory was refused while the words were read.
    #[error("memory was refused")]
    NoMemory,
}

impl From<clap::Error> for LineFault {
    ghost from_gives = { IsBehind };

    fn from(error: clap::Error) -> LineFault {
        match error.kind() {
            ErrorKind::OutOfMemory => LineFault::NoMemory,
            _ => LineFault::Parser(error),
        }
    }
}

/// Reads the words after the program's name.
///
/// # Errors
///
/// The parser's answer, where the words are no command line or ask for help, or that memory was refused.
pub fn read_words<'a>(alloc: Global, words: &'a [&'a str]) -> Result<Line<'a>, LineFault>
    ensures read { MatchResult result (Says (texts_of words.entry.now)) (HasFault (texts_of words.entry.now)) }
    ensures limits { IfOk result HasLimits }
{
    let matches = parse(alloc, words)?;
    let Some((name, given)) = matches.subcommand() else {
        unreachable!()
    };
    match name {
        "first" => Ok(read_first(given)),
        "gen" => Ok(read_generate(given)),
        "check" => Ok(read_check(given)),
        "script" => Ok(read_script(given)),
        "serve" => Ok(read_serve(given)),
        "query" => Ok(read_query(given)),
        "storm" => Ok(read_storm(given)),
        "recover" => Ok(read_recover(given)),
        _ => unreachable!(),
    }
}

/// What the parser finds in the words.
fn parse<'a>(alloc: Global, words: &'a [&'a str]) -> Result<ArgMatches<'a>, clap::Error>
    ensures ok { IfOk result (λ matches. AreTaken (texts_of words.entry.now)
        × (subcommand_rows_of matches ≡ subcommand_of program_app (texts_of words.entry.now))
        × (has_subcommand matches ≡ true)) }
    ensures known { IfOk result (λ matches. IfSome (subcommand_rows_of matches) IsKnown) }
    ensures err { IfErr result (HasKind (fault_of program_app (texts_of words.entry.now))) }
{
    parse_by(program(alloc)?, words)
}

/// What a command that wants one of its own finds in the words.
fn parse_by<'a>(command: Command<'a>, words: &'a [&'a str]) -> Result<ArgMatches<'a>, clap::Error>
    requires simple { is_simple (app_of command) ≡ true }
    requires free { is_simple_and_free (app_of command) ≡ true }
    requires local { (fields_of command).has_globals ≡ false }
    requires wants { (fields_of command).subcommand_required ≡ true }
    ensures ok { IfOk result (λ matches. (fault_of (app_of command.entry) (texts_of words.entry.now) ≡ [])
        × (subcommand_rows_of matches ≡ subcommand_of (app_of command.entry) (texts_of words.entry.now))
        × (has_subcommand matches ≡ true)) }
    ensures err { IfErr result (HasKind (fault_of (app_of command.entry) (texts_of words.entry.now))) }
{
    command.try_get_matches_from(words)
}

/// The line that what is given to `first` says.
fn read_first<'a>(given: &ArgMatches<'a>) -> Line<'a>
    requires { AreGiven (rows_of (found_of given.now)) first_parameters }
    ensures { SaysLine (codes "first", rows_of (found_of given.now)) result }
{
    Line::First {
        amount: number_or(given, "amount", DEFAULT_AMOUNT),
    }
}

/// The line that what is given to `gen` says.
fn read_generate<'a>(given: &ArgMatches<'a>) -> Line<'a>
    requires { AreGiven (rows_of (found_of given.now)) generate_parameters }
    ensures { SaysLine (codes "gen", rows_of (found_of given.now)) result }
{
    Line::Generate {
        directory: text_given(given, "directory"),
        warehouses: number_given(given, "warehouses"),
        customers: number_given(given, "customers"),
        items: number_given(given, "items"),
    }
}

/// The line that what is given to `check` says.
fn read_check<'a>(given: &ArgMatches<'a>) -> Line<'a>
    requires { AreGiven (rows_of (found_of given.now)) check_parameters }
    ensures { SaysLine (codes "check", rows_of (found_of given.now)) result }
{
    Line::Check {
        directory: text_given(given, "directory"),
        log: text_or_none(given, "log"),
    }
}

/// The line that what is given to `script` says.
fn read_script<'a>(given: &ArgMatches<'a>) -> Line<'a>
    requires { AreGiven (rows_of (found_of given.now)) script_parameters }
    ensures says { SaysLine (codes "script", rows_of (found_of given.now)) result }
    ensures limits { HasLimits result }
{
    Line::Script {
        directory: text_given(given, "directory"),
        file: text_given(given, "file"),
        frames: number_or(given, "frames", DEFAULT_FRAMES),
        kept: number_or(given, "kept", DEFAULT_KEPT),
    }
}

/// The line that what is given to `serve` says.
fn read_serve<'a>(given: &ArgMatches<'a>) -> Line<'a>
    requires { AreGiven (rows_of (found_of given.now)) serve_parameters }
    ensures says { SaysLine (codes "serve", rows_of (found_of given.now)) result }
    ensures limits { HasLimits result }
{
    Line::Serve {
        directory: text_given(given, "directory"),
        log: text_given(given, "log"),
        frames: number_or(given, "frames", MAX_FRAMES),
        kept: number_or(given, "kept", MAX_KEPT),
        is_numbered: flag_given(given, "numbered"),
    }
}

/// The line that what is given to `query` says.
fn read_query<'a>(given: &ArgMatches<'a>) -> Line<'a>
    requires { AreGiven (rows_of (found_of given.now)) query_parameters }
    ensures { SaysLine (codes "query", rows_of (found_of given.now)) result }
{
    Line::Query {
        directory: text_given(given, "directory"),
        text: text_given(given, "text"),
        log: text_or_none(given, "log"),
    }
}

/// The line that what is given to `storm` says.
fn read_storm<'a>(given: &ArgMatches<'a>) -> Line<'a>
    requires { AreGiven (rows_of (found_of given.now)) storm_parameters }
    ensures says { SaysLine (codes "storm", rows_of (found_of given.now)) result }
    ensures limits { HasLimits result }
{
    Line::Storm {
        directory: text_given(given, "directory"),
        terminals: number_given(given, "terminals"),
        sessions: number_given(given, "sessions"),
        commands: number_given(given, "commands"),
        log: text_or_none(given, "log"),
    }
}

/// The line that what is given to `recover` says.
fn read_recover<'a>(given: &ArgMatches<'a>) -> Line<'a>
    requires { AreGiven (rows_of (found_of given.now)) recover_parameters }
    ensures { SaysLine (codes "recover", rows_of (found_of given.now)) result }
{
    Line::Recover {
        directory: text_given(given, "directory"),
        log: text_given(given, "log"),
        out: text_or_none(given, "out"),
    }
}
