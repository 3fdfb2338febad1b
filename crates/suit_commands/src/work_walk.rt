//! How many commands a sequence executes, counting each once for each selected component.

ghost use Rattle.std.specs.Prelude.{◌≡◌, ◌<◌, ◌^◌};
ghost use Rattle.suit_commands.specs.Capped.{capped};
ghost use Rattle.suit_commands.specs.Numbers.{work_of, command_work, branches_work, selected_count, count_after};
ghost use Rattle.suit_commands.specs.View.{command_tree};

use crate::capped::{plus, product};
use crate::{Branches, Command, Selection, Sequence};

/// How many indices a selection has.
pub(crate) fn index_count(selection: &Selection, count: u32) -> u64
    ensures { result ≡ selected_count selection.now count }
{
    match selection {
        Selection::One(_) => 1,
        Selection::All => count as u64,
        Selection::Listed(indices) => indices.len() as u64,
    }
}

/// How many indices are selected after a command.
pub(crate) fn count_after(command: &Command, count: u32, selected: u64) -> u64
    ensures { result ≡ count_after (command_tree command.now) count selected }
{
    match command {
        Command::Index(selection) => index_count(selection, count),
        _ => selected,
    }
}

/// The work of a sequence that begins with one component selected.
#[cycle(work)]
pub(crate) fn sequence_work(sequence: &Sequence, count: u32) -> u64
    ensures { result ≡ capped (work_of sequence.now count 1) }
{
    let mut selected: u64 = 1;
    let mut total: u64 = 0;
    for step in sequence.as_slice() {
        total = plus(total, command_work(&step.command, count, selected));
        selected = count_after(&step.command, count, selected);
    }
    total
}

/// The work of a command, given how many indices are selected.
#[cycle(work)]
fn command_work(command: &Command, count: u32, selected: u64) -> u64
    ensures { result ≡ capped (command_work (command_tree command.now) count selected) }
{
    match command {
        Command::Index(_) => 1,
        Command::TryEach(branches) => product(selected, plus(1, branches_work(branches, count))),
        Command::Run(inner) => product(selected, plus(1, sequence_work(inner, count))),
        _ => selected,
    }
}

/// The work of all sequences of a try each.
#[cycle(work)]
fn branches_work(branches: &Branches, count: u32) -> u64
    ensures { result ≡ capped (branches_work branches.now count) }
{
    let mut total: u64 = 0;
    for branch in branches.as_slice() {
        match branch {
            Some(inner) => total = plus(total, sequence_work(inner, count)),
            None => {}
        }
    }
    total
}
