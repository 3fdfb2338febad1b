//! The table of commands.

ghost use Rattle.std.specs.Prelude.{◌≡◌, IfOk, option_map};
ghost use Rattle.command_words.specs.Tasks.{texts};
ghost use Rattle.command_words.specs.Table.{task_of};
ghost use Rattle.command_words.specs.Said.{said};
ghost use Rattle.command_words.specs.Spelled.{AskFor};

use crate::command::Command;
use crate::rows::{check, diag, drill, make, run, show};
use crate::word::are_plain;
use std::alloc::{AllocError, Global};

fn in_table<'a>(alloc: Global, words: &'a [&'a str]) -> Result<Option<Command<'a>>, AllocError>
    ensures { IfOk result (λ c. option_map said c ≡ task_of (texts words.entry.now)) }
{
    if words.is_empty() || !are_plain(words) {
        return Ok(None);
    }
    match words[0] {
        "make" => make(alloc, words),
        "show" => show(alloc, words),
        "check" => check(alloc, words),
        "run" => run(alloc, words),
        "drill" => drill(alloc, words),
        "diag" => diag(alloc, words),
        _ => Ok(None),
    }
}

/// The command that the words spell, or `None` if they spell none and the program has to show its
/// usage. The words do not include the program's name.
///
/// Words that spell no command are recognized without allocating. The arguments of a command are
/// left to `clap`, which takes them all unless memory runs out.
pub fn command_of<'a>(
    alloc: Global,
    words: &'a [&'a str],
) -> Result<Option<Command<'a>>, AllocError>
    ensures spelled { IfOk result (λ c. AskFor (texts words.entry.now) (option_map said c)) }
    ensures table { IfOk result (λ c. option_map said c ≡ task_of (texts words.entry.now)) }
{
    in_table(alloc, words)
}
