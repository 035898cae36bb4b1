//! What the parser knows of the program.

ghost use Rattle.std.specs.Prelude.{◌≡◌, IfOk, codes, false, true};
ghost use Rattle.clap.specs.Words.{app_of, rule_of, shape_of};
ghost use Rattle.clap.specs.declared.builder.command.Command.TheViews.{out-Command as fields_of};
ghost use Rattle.hy_cli.specs.CommandLine.{bare_app, bounded_number, check_parameters, command_of, first_parameters, flag, generate_parameters, named_text, optional_number, optional_text, program_app, query_parameters, recover_parameters, required_number, required_text, required_within, rule_for, script_parameters, serve_parameters, storm_parameters};

use clap::builder::ValueParser;
use clap::{Arg, ArgAction, Command, value_parser};
use std::alloc::{AllocError, Global};

/// How many frames a partition may have at most.
pub const MAX_FRAMES: u64 = 10_000_000;

/// How many commits a partition may keep at most.
pub const MAX_KEPT: u64 = 100_000_000;

/// How many terminals a storm has at most.
const MAX_TERMINALS: u64 = 64;

/// How many sessions a storm has at most.
const MAX_SESSIONS: u64 = 16;

/// How many commands a terminal hands in at most.
const MAX_COMMANDS: u64 = 100_000;

/// The program, which wants one of its commands.
pub fn program<'a>(alloc: Global) -> Result<Command<'a>, AllocError>
    ensures { IfOk result (λ command. (app_of command ≡ program_app)
        × ((fields_of command).has_globals ≡ false)
        × ((fields_of command).subcommand_required ≡ true)) }
{
    bare(alloc)
        .subcommand(first(alloc)?)?
        .subcommand(generate(alloc)?)?
        .subcommand(check(alloc)?)?
        .subcommand(script(alloc)?)?
        .subcommand(serve(alloc)?)?
        .subcommand(query(alloc)?)?
        .subcommand(storm(alloc)?)?
        .subcommand(recover(alloc)?)
}

/// The program without its commands.
fn bare<'a>(alloc: Global) -> Command<'a>
    ensures { (app_of result ≡ bare_app) × ((fields_of result).has_globals ≡ false) }
{
    Command::new(alloc, "hyper")
        .about("An in-memory order-entry database")
        .no_binary_name(true)
        .subcommand_required(true)
        .disable_help_subcommand(true)
}

/// `first [--amount CENTS]`.
fn first<'a>(alloc: Global) -> Result<Command<'a>, AllocError>
    ensures { IfOk result (λ command. (shape_of command ≡ command_of (codes "first") first_parameters)
        × ((fields_of command).has_globals ≡ false)) }
{
    Command::new(alloc, "first")
        .about("Runs one payment on a generated warehouse and prints its year-to-date total")
        .arg(option(
            alloc,
            "amount",
            "CENTS",
            "What the customer pays, in cents: 100 if it isn't given",
        ))
}

/// `gen DIR --warehouses W --customers C --items I`.
fn generate<'a>(alloc: Global) -> Result<Command<'a>, AllocError>
    ensures { IfOk result (λ command. (shape_of command ≡ command_of (codes "gen") generate_parameters)
        × ((fields_of command).has_globals ≡ false)) }
{
    Command::new(alloc, "gen")
        .about("Writes a generated database as nine files")
        .arg(positional(alloc, "directory", "DIR", "The folder of the files"))?
        .arg(required_option(alloc, "warehouses", "W", "How many warehouses there are"))?
        .arg(required_option(
            alloc,
            "customers",
            "C",
            "How many customers each district has",
        ))?
        .arg(required_option(alloc, "items", "I", "How many items there are"))
}

/// `check DIR [--log FILE]`.
fn check<'a>(alloc: Global) -> Result<Command<'a>, AllocError>
    ensures { IfOk result (λ command. (shape_of command ≡ command_of (codes "check") check_parameters)
        × ((fields_of command).has_globals ≡ false)) }
{
    Command::new(alloc, "check")
        .about("Tests the database in nine files")
        .arg(positional(alloc, "directory", "DIR", "The folder of the files"))?
        .arg(read_log(alloc))
}

/// `script DIR FILE [--frames F] [--kept K]`.
fn script<'a>(alloc: Global) -> Result<Command<'a>, AllocError>
    ensures { IfOk result (λ command. (shape_of command ≡ command_of (codes "script") script_parameters)
        × ((fields_of command).has_globals ≡ false)) }
{
    Command::new(alloc, "script")
        .about("Runs the events of a file on the database in nine files, and prints their answers")
        .arg(positional(alloc, "directory", "DIR", "The folder of the files"))?
        .arg(positional(alloc, "file", "FILE", "The file of events, one a line"))?
        .arg(bounded_option(
            alloc,
            "frames",
            "F",
            "How many frames each warehouse may have: 100,000 if it isn't given",
            MAX_FRAMES,
        ))?
        .arg(bounded_option(
            alloc,
            "kept",
            "K",
            "How many commits each warehouse may keep: 1,000,000 if it isn't given",
            MAX_KEPT,
        ))
}

/// `serve DIR --log FILE [--frames F] [--kept K] [--numbered]`.
fn serve<'a>(alloc: Global) -> Result<Command<'a>, AllocError>
    ensures { IfOk result (λ command. (shape_of command ≡ command_of (codes "serve") serve_parameters)
        × ((fields_of command).has_globals ≡ false)) }
{
    Command::new(alloc, "serve")
        .about(
            "Runs events as they come on the database in nine files and its log, and prints their answers",
        )
        .arg(positional(alloc, "directory", "DIR", "The folder of the files"))?
        .arg(required_text_option(
            alloc,
            "log",
            "FILE",
            "The file of the log: what it has is run again first, and what is committed is written behind it",
        ))?
        .arg(bounded_option(
            alloc,
            "frames",
            "F",
            "How many frames each warehouse may have: 10,000,000 if it isn't given",
            MAX_FRAMES,
        ))?
        .arg(bounded_option(
            alloc,
            "kept",
            "K",
            "How many commits each warehouse may keep: 100,000,000 if it isn't given",
            MAX_KEPT,
        ))?
        .arg(flag(
            alloc,
            "numbered",
            "Each answer stands behind the number of its event's line",
        ))
}

/// `query DIR TEXT [--log FILE]`.
fn query<'a>(alloc: Global) -> Result<Command<'a>, AllocError>
    ensures { IfOk result (λ command. (shape_of command ≡ command_of (codes "query") query_parameters)
        × ((fields_of command).has_globals ≡ false)) }
{
    Command::new(alloc, "query")
        .about("Prints the answer to a query on the database in nine files")
        .arg(positional(alloc, "directory", "DIR", "The folder of the files"))?
        .arg(positional(alloc, "text", "TEXT", "The query, as one word"))?
        .arg(read_log(alloc))
}

/// `storm DIR --terminals T --sessions S --commands K [--log FILE]`.
fn storm<'a>(alloc: Global) -> Result<Command<'a>, AllocError>
    ensures { IfOk result (λ command. (shape_of command ≡ command_of (codes "storm") storm_parameters)
        × ((fields_of command).has_globals ≡ false)) }
{
    Command::new(alloc, "storm")
        .about(
            "Runs terminals and sessions on the database in nine files, and prints what they came to",
        )
        .arg(positional(alloc, "directory", "DIR", "The folder of the files"))?
        .arg(required_within(
            alloc,
            "terminals",
            "T",
            "How many terminals hand in commands, from 1 to 64",
            1,
            MAX_TERMINALS,
        ))?
        .arg(required_within(
            alloc,
            "sessions",
            "S",
            "How many sessions take snapshots, from 0 to 16",
            0,
            MAX_SESSIONS,
        ))?
        .arg(required_within(
            alloc,
            "commands",
            "K",
            "How many commands each terminal hands in, from 0 to 100,000",
            0,
            MAX_COMMANDS,
        ))?
        .arg(text_option(
            alloc,
            "log",
            "FILE",
            "The file that what is committed is written to, which is made anew: none if it isn't given",
        ))
}

/// `recover DIR LOG [--out DIR2]`.
fn recover<'a>(alloc: Global) -> Result<Command<'a>, AllocError>
    ensures { IfOk result (λ command. (shape_of command ≡ command_of (codes "recover") recover_parameters)
        × ((fields_of command).has_globals ≡ false)) }
{
    Command::new(alloc, "recover")
        .about(
            "Runs what a log has again on the database in nine files, and tests what comes of it",
        )
        .arg(positional(alloc, "directory", "DIR", "The folder of the files"))?
        .arg(positional(alloc, "log", "LOG", "The file of the log"))?
        .arg(text_option(
            alloc,
            "out",
            "DIR2",
            "The folder that what comes of it is written to as nine files: none if it isn't given",
        ))
}

/// A word at its place, which has to be given; help calls it `value`.
fn positional<'a>(alloc: Global, name: &'a str, value: &'a str, help: &'a str) -> Arg<'a>
    ensures { (rule_of result ≡ rule_for (required_text name.entry.now)) × (result.global ≡ false) }
{
    Arg::new(alloc, name)
        .value_name(value)
        .required(true)
        .help(help)
}

/// `--name TEXT`, a word that may be left out.
fn text_option<'a>(alloc: Global, name: &'a str, value: &'a str, help: &'a str) -> Arg<'a>
    ensures { (rule_of result ≡ rule_for (optional_text name.entry.now)) × (result.global ≡ false) }
{
    Arg::new(alloc, name)
        .long(name)
        .value_name(value)
        .help(help)
}

/// `--log FILE`, a log that is run again before a command looks at the database, which may be left out.
fn read_log<'a>(alloc: Global) -> Arg<'a>
    ensures { (rule_of result ≡ rule_for (optional_text (codes "log"))) × (result.global ≡ false) }
{
    text_option(
        alloc,
        "log",
        "FILE",
        "The file of a log that is run again on the database first: none if it isn't given",
    )
}

/// `--name TEXT`, a word that has to be given.
fn required_text_option<'a>(alloc: Global, name: &'a str, value: &'a str, help: &'a str) -> Arg<'a>
    ensures { (rule_of result ≡ rule_for (named_text name.entry.now)) × (result.global ≡ false) }
{
    text_option(alloc, name, value, help).required(true)
}

/// `--name` alone, which may be left out.
fn flag<'a>(alloc: Global, name: &'a str, help: &'a str) -> Arg<'a>
    ensures { (rule_of result ≡ rule_for (flag name.entry.now)) × (result.global ≡ false) }
{
    Arg::new(alloc, name)
        .long(name)
        .action(ArgAction::SetTrue)
        .help(help)
}

/// `--name NUMBER`, a number of 64 bits that may be left out.
fn option<'a>(alloc: Global, name: &'a str, value: &'a str, help: &'a str) -> Arg<'a>
    ensures { (rule_of result ≡ rule_for (optional_number name.entry.now)) × (result.global ≡ false) }
{
    Arg::new(alloc, name)
        .long(name)
        .value_name(value)
        .value_parser(value_parser!(u64))
        .help(help)
}

/// `--name NUMBER`, a number from 1 to `most` that may be left out.
fn bounded_option<'a>(
    alloc: Global,
    name: &'a str,
    value: &'a str,
    help: &'a str,
    most: u64,
) -> Arg<'a>
    ensures { (rule_of result ≡ rule_for (bounded_number 1 most name.entry.now)) × (result.global ≡ false) }
{
    Arg::new(alloc, name)
        .long(name)
        .value_name(value)
        .value_parser(ValueParser::unsigned(1, most))
        .help(help)
}

/// `--name NUMBER`, a number of 64 bits that has to be given.
fn required_option<'a>(alloc: Global, name: &'a str, value: &'a str, help: &'a str) -> Arg<'a>
    ensures { (rule_of result ≡ rule_for (required_number name.entry.now)) × (result.global ≡ false) }
{
    option(alloc, name, value, help).required(true)
}

/// `--name NUMBER`, a number from `least` to `most` that has to be given.
fn required_within<'a>(
    alloc: Global,
    name: &'a str,
    value: &'a str,
    help: &'a str,
    least: u64,
    most: u64,
) -> Arg<'a>
    ensures { (rule_of result ≡ rule_for (required_within least most name.entry.now)) × (result.global ≡ false) }
{
    Arg::new(alloc, name)
        .long(name)
        .value_name(value)
        .value_parser(ValueParser::unsigned(least, most))
        .required(true)
        .help(help)
}
