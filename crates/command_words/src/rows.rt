//! The rows of the table, each of which reads a command from its words.

ghost use Rattle.std.specs.Prelude.{◌≡◌, true, IfOk, option_map};
ghost use Rattle.std.specs.List.{list_all};
ghost use Rattle.command_words.specs.Tasks.{texts};
ghost use Rattle.command_words.specs.Words.{is_plain};
ghost use Rattle.command_words.specs.Table.{alone_of, check_of, diag_of, drill_of, init_of, make_of, migrate_of, run_of, show_of, update_of};
ghost use Rattle.command_words.specs.Said.{said};

use crate::arguments::{Row, found, option_of, value_of, values_of};
use crate::command::Command;
use crate::number::number_of;
use crate::uri_words::{UriWords, are_answers};
use std::alloc::{AllocError, Global};

/// How many words `URI=NAME` a command may have.
const MOST_URIS: usize = 64;

/// `make DESCRIPTION KEY OUT`
pub(crate) fn make<'a>(
    alloc: Global,
    words: &'a [&'a str],
) -> Result<Option<Command<'a>>, AllocError>
    requires { list_all is_plain (texts words.now) ≡ true }
    ensures { IfOk result (λ c. option_map said c ≡ make_of (texts words.entry.now)) }
{
    if words.len() != 4 {
        return Ok(None);
    }
    let matches = found(alloc, Row::Make, words)?;
    let description = value_of(&matches, "DESCRIPTION");
    let key = value_of(&matches, "KEY");
    let out = value_of(&matches, "OUT");
    Ok(Some(Command::Make {
        description,
        key,
        out,
    }))
}

/// `show FILE` and `show FILE KEY`
pub(crate) fn show<'a>(
    alloc: Global,
    words: &'a [&'a str],
) -> Result<Option<Command<'a>>, AllocError>
    requires { list_all is_plain (texts words.now) ≡ true }
    ensures { IfOk result (λ c. option_map said c ≡ show_of (texts words.entry.now)) }
{
    if words.len() < 2 || words.len() > 3 {
        return Ok(None);
    }
    let matches = found(alloc, Row::Show, words)?;
    let file = value_of(&matches, "FILE");
    match option_of(&matches, "KEY") {
        Some(key) => Ok(Some(Command::Show { file, key })),
        None => Ok(Some(Command::Describe { file })),
    }
}

/// `check FILE`
pub(crate) fn check<'a>(
    alloc: Global,
    words: &'a [&'a str],
) -> Result<Option<Command<'a>>, AllocError>
    requires { list_all is_plain (texts words.now) ≡ true }
    ensures { IfOk result (λ c. option_map said c ≡ check_of (texts words.entry.now)) }
{
    if words.len() != 2 {
        return Ok(None);
    }
    let matches = found(alloc, Row::Check, words)?;
    let file = value_of(&matches, "FILE");
    Ok(Some(Command::Check { file }))
}

/// `drill NUMBER`
pub(crate) fn drill<'a>(
    alloc: Global,
    words: &'a [&'a str],
) -> Result<Option<Command<'a>>, AllocError>
    requires { list_all is_plain (texts words.now) ≡ true }
    ensures { IfOk result (λ c. option_map said c ≡ drill_of (texts words.entry.now)) }
{
    if words.len() != 2 || number_of(words[1]).is_none() {
        return Ok(None);
    }
    let matches = found(alloc, Row::Drill, words)?;
    match number_of(value_of(&matches, "NUMBER")) {
        Some(number) => Ok(Some(Command::Drill { number })),
        None => Ok(None),
    }
}

/// `diag FILE`
pub(crate) fn diag<'a>(
    alloc: Global,
    words: &'a [&'a str],
) -> Result<Option<Command<'a>>, AllocError>
    requires { list_all is_plain (texts words.now) ≡ true }
    ensures { IfOk result (λ c. option_map said c ≡ diag_of (texts words.entry.now)) }
{
    if words.len() != 2 {
        return Ok(None);
    }
    let matches = found(alloc, Row::Diagnose, words)?;
    let file = value_of(&matches, "FILE");
    Ok(Some(Command::Diagnose { file }))
}

// `run init DEVICE KEY`
fn init<'a>(alloc: Global, words: &'a [&'a str]) -> Result<Option<Command<'a>>, AllocError>
    requires { list_all is_plain (texts words.now) ≡ true }
    ensures { IfOk result (λ c. option_map said c ≡ init_of (texts words.entry.now)) }
{
    if words.len() != 3 {
        return Ok(None);
    }
    let matches = found(alloc, Row::Init, words)?;
    let device = value_of(&matches, "DEVICE");
    let key = value_of(&matches, "KEY");
    Ok(Some(Command::Init { device, key }))
}

// `run update FILE [URI=NAME]...`
fn update<'a>(alloc: Global, words: &'a [&'a str]) -> Result<Option<Command<'a>>, AllocError>
    requires { list_all is_plain (texts words.now) ≡ true }
    ensures { IfOk result (λ c. option_map said c ≡ update_of (texts words.entry.now)) }
{
    if words.len() < 2 {
        return Ok(None);
    }
    let answers = &words[2..];
    if answers.len() > MOST_URIS || !are_answers(answers) {
        return Ok(None);
    }
    let matches = found(alloc, Row::Update, words)?;
    let file = value_of(&matches, "FILE");
    match values_of(&matches, "URI=NAME") {
        Some(answers) => {
            let uris = UriWords::cut(alloc, answers)?;
            Ok(Some(Command::Update { file, uris }))
        }
        None => {
            let uris = UriWords::new(alloc);
            Ok(Some(Command::Update { file, uris }))
        }
    }
}

// `run migrate BASE`
fn migrate<'a>(alloc: Global, words: &'a [&'a str]) -> Result<Option<Command<'a>>, AllocError>
    requires { list_all is_plain (texts words.now) ≡ true }
    ensures { IfOk result (λ c. option_map said c ≡ migrate_of (texts words.entry.now)) }
{
    if words.len() != 2 || number_of(words[1]).is_none() {
        return Ok(None);
    }
    let matches = found(alloc, Row::Migrate, words)?;
    match number_of(value_of(&matches, "BASE")) {
        Some(base) => Ok(Some(Command::Migrate { base })),
        None => Ok(None),
    }
}

// A command without arguments.
fn alone<'a>(command: Command<'a>, words: &[&str]) -> Option<Command<'a>>
    ensures { option_map said result ≡ alone_of (said command.entry) (texts words.now) }
{
    if words.len() == 1 {
        Some(command)
    } else {
        None
    }
}

/// `run init`, `run update`, `run boot`, `run status` and `run migrate`
pub(crate) fn run<'a>(
    alloc: Global,
    words: &'a [&'a str],
) -> Result<Option<Command<'a>>, AllocError>
    requires { list_all is_plain (texts words.now) ≡ true }
    ensures { IfOk result (λ c. option_map said c ≡ run_of (texts words.entry.now)) }
{
    if words.len() < 2 {
        return Ok(None);
    }
    let words = &words[1..];
    match words[0] {
        "init" => init(alloc, words),
        "update" => update(alloc, words),
        "boot" => Ok(alone(Command::Boot, words)),
        "status" => Ok(alone(Command::Status, words)),
        "migrate" => migrate(alloc, words),
        _ => Ok(None),
    }
}
