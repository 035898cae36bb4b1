//! Reads what is given for a parameter, where the parser takes the words.

ghost use Rattle.std.specs.Prelude.{ℕ, IfSome, IsSome, IsSomeAnd};
ghost use Rattle.std.specs.Option.{option_copied};
ghost use Rattle.clap.specs.Walk.{first_of, one_of};
ghost use Rattle.clap.specs.Words.{IsUnsignedIn, found_of, rows_of};
ghost use Rattle.hy_cli.specs.CommandLine.{IsIn, IsNumber, SaysFlag, SaysNumber, SaysNumberOr, SaysText, SaysTextOrNone};
ghost use Rattle.hy_cli.specs.inside.Given.{IsTruth};

use clap::ArgMatches;

/// The text that is given for `name`.
pub fn text_given<'a>(given: &ArgMatches<'a>, name: &str) -> &'a str
    requires { IsSome (first_of name.now (rows_of (found_of given.now))) }
    ensures { SaysText name.now (rows_of (found_of given.now)) result.now }
{
    let Some(text) = given.get_str(name) else {
        unreachable!()
    };
    text
}

/// The text that is given for `name`, where one is.
pub fn text_or_none<'a>(given: &ArgMatches<'a>, name: &str) -> Option<&'a str>
    ensures { SaysTextOrNone name.now (rows_of (found_of given.now)) (option_copied result) }
{
    given.get_str(name)
}

/// The number that is given for `name`.
pub fn number_given(given: &ArgMatches<'_>, name: &str) -> u64
    requires { IsSomeAnd (one_of name.now (rows_of (found_of given.now))) IsNumber }
    ensures says { SaysNumber name.now (rows_of (found_of given.now)) result }
    ensures bounds { (low high : ℕ) → IsSomeAnd (one_of name.now (rows_of (found_of given.now))) (IsUnsignedIn low high)
        → IsIn low high result }
{
    let Some(number) = given.get_one(name) else {
        unreachable!()
    };
    number
}

/// The number that is given for `name`, or `default` where none is.
pub fn number_or(given: &ArgMatches<'_>, name: &str, default: u64) -> u64
    requires { IfSome (one_of name.now (rows_of (found_of given.now))) IsNumber }
    ensures says { SaysNumberOr default name.now (rows_of (found_of given.now)) result }
    ensures bounds { (low high : ℕ) → IsIn low high default
        → IfSome (one_of name.now (rows_of (found_of given.now))) (IsUnsignedIn low high) → IsIn low high result }
{
    given.get_one(name).unwrap_or(default)
}

/// Whether the flag `name` is given.
pub fn flag_given(given: &ArgMatches<'_>, name: &str) -> bool
    requires { IfSome (one_of name.now (rows_of (found_of given.now))) IsTruth }
    ensures { SaysFlag name.now (rows_of (found_of given.now)) result }
{
    given.get_flag(name)
}
