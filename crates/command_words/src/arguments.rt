//! The commands as `clap` knows them. It takes their words, and hands out their arguments.

ghost use Rattle.std.specs.Prelude.{◌≡◌, ◌<◌, true, IfOk, Some, is_some, option_map, length, drop};
ghost use Rattle.clap.specs.Takes.{takes};
ghost use Rattle.clap.specs.Walk.{all_of, first_of, rows_of};
ghost use Rattle.clap.specs.Simple.{app_of, matches_of, with_rule};
ghost use Rattle.clap.specs.Matches.{found_of};
ghost use Rattle.command_words.specs.Tasks.{texts};
ghost use Rattle.command_words.specs.Arguments.{app_for, bare_app, rule_for};

use clap::error::ErrorKind;
use clap::{Arg, ArgMatches, Command};
use std::alloc::{AllocError, Global};

/// How many values an argument has. None is required, since the table has already judged the words.
#[derive(Clone, Copy)]
pub(crate) enum Values {
    One,
    AnyNumber,
}

/// A row of the table whose arguments `clap` hands out.
#[derive(Clone, Copy)]
pub(crate) enum Row {
    Check,
    Diagnose,
    Drill,
    Init,
    Make,
    Migrate,
    Show,
    Update,
}

// A command with this name. Its words are its arguments only: none begins with a dash, so there are
// no flags.
fn bare<'a>(alloc: Global, name: &'a str) -> Command<'a>
    ensures { app_of result ≡ bare_app name.entry.now }
{
    Command::new(alloc, name)
        .no_binary_name(true)
        .disable_help_flag(true)
}

// Adds an argument to a command.
fn with<'a>(
    alloc: Global,
    command: Command<'a>,
    has: Values,
    id: &'a str,
) -> Result<Command<'a>, AllocError>
    ensures { IfOk result (λ c. app_of c
        ≡ with_rule (app_of command.entry) (rule_for has id.entry.now)) }
{
    match has {
        Values::One => command.arg(Arg::new(alloc, id)),
        Values::AnyNumber => command.arg(Arg::new(alloc, id).num_args(0..)),
    }
}

// The command of a row.
fn command_for<'a>(alloc: Global, row: Row) -> Result<Command<'a>, AllocError>
    ensures { IfOk result (λ c. app_of c ≡ app_for row) }
{
    match row {
        Row::Check => with(alloc, bare(alloc, "check"), Values::One, "FILE"),
        Row::Diagnose => with(alloc, bare(alloc, "diag"), Values::One, "FILE"),
        Row::Drill => with(alloc, bare(alloc, "drill"), Values::One, "NUMBER"),
        Row::Init => {
            let command = with(alloc, bare(alloc, "init"), Values::One, "DEVICE")?;
            with(alloc, command, Values::One, "KEY")
        }
        Row::Make => {
            let command = bare(alloc, "make");
            let command = with(alloc, command, Values::One, "DESCRIPTION")?;
            let command = with(alloc, command, Values::One, "KEY")?;
            with(alloc, command, Values::One, "OUT")
        }
        Row::Migrate => with(alloc, bare(alloc, "migrate"), Values::One, "BASE"),
        Row::Show => {
            let command = with(alloc, bare(alloc, "show"), Values::One, "FILE")?;
            with(alloc, command, Values::One, "KEY")
        }
        Row::Update => {
            let command = with(alloc, bare(alloc, "update"), Values::One, "FILE")?;
            with(alloc, command, Values::AnyNumber, "URI=NAME")
        }
    }
}

// Matches words that the command takes. Fails only if memory runs out.
fn matched<'a>(
    command: &mut Command<'a>,
    words: &'a [&'a str],
) -> Result<ArgMatches<'a>, AllocError>
    requires { takes (app_of command.old) (texts words.now) ≡ true }
    ensures { IfOk result (λ m. rows_of (found_of m)
        ≡ matches_of (app_of command.old) (texts words.entry.now)) }
{
    match command.try_get_matches_from_mut(words) {
        Ok(matches) => Ok(matches),
        Err(error) => {
            let kind = error.kind();
            prove!(kind == ErrorKind::OutOfMemory);
            Err(AllocError)
        }
    }
}

/// Matches the words after a command's name. The command of the row takes them, so it fails only if
/// memory runs out.
pub(crate) fn found<'a>(
    alloc: Global,
    row: Row,
    words: &'a [&'a str],
) -> Result<ArgMatches<'a>, AllocError>
    requires named { 0 < length words.now }
    requires taken { takes (app_for row) (drop 1 (texts words.now)) ≡ true }
    ensures { IfOk result (λ m. rows_of (found_of m)
        ≡ matches_of (app_for row) (drop 1 (texts words.entry.now))) }
{
    let mut command = command_for(alloc, row)?;
    matched(&mut command, &words[1..])
}

/// The value of an argument that was given.
pub(crate) fn value_of<'a>(matches: &ArgMatches<'a>, id: &str) -> &'a str
    requires { is_some (first_of id.now (rows_of (found_of matches.now))) ≡ true }
    ensures { first_of id.now (rows_of (found_of matches.now)) ≡ Some result.now }
{
    matches.get_str(id).unwrap()
}

/// The value of an argument that may be left out.
pub(crate) fn option_of<'a>(matches: &ArgMatches<'a>, id: &str) -> Option<&'a str>
    ensures { option_map (λ s. s.now) result ≡ first_of id.now (rows_of (found_of matches.now)) }
{
    matches.get_str(id)
}

/// The values of an argument that can have any number of them.
pub(crate) fn values_of<'m, 'a>(matches: &'m ArgMatches<'a>, id: &str) -> Option<&'m [&'a str]>
    ensures { option_map (λ s. texts s.now) result
        ≡ all_of id.now (rows_of (found_of matches.entry.now)) }
{
    matches.get_strs(id)
}
