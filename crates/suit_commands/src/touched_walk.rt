//! The components that a sequence touches. Each inner sequence is walked once, whichever components
//! are selected there.

ghost use Rattle.std.specs.Prelude.{◌≡◌, ◌≤◌};
ghost use Rattle.suit_commands.specs.Indexed.{AreIndexed, IsIndexed, BranchesIndexed};
ghost use Rattle.suit_commands.specs.TouchedBits.{bits_after, touched_of, command_touched, branches_touched};
ghost use Rattle.suit_commands.specs.View.{command_tree};

use crate::reach::selection_bits;
use crate::{Branches, Command, Sequence};

/// The components selected after a command, as bits.
fn bits_after(command: &Command, count: u32, selected: u32) -> u32
    requires indexed { IsIndexed count (command_tree command.now) }
    requires few { count ≤ 8 }
    ensures { result ≡ bits_after (command_tree command.now) count selected }
{
    match command {
        Command::Index(selection) => selection_bits(selection, count),
        _ => selected,
    }
}

/// The components that a sequence touches, as bits, if it begins with those in `start` selected.
#[cycle(touched)]
pub(crate) fn sequence_touched(sequence: &Sequence, count: u32, start: u32) -> u32
    requires indexed { AreIndexed count sequence.now }
    requires few { count ≤ 8 }
    ensures { result ≡ touched_of sequence.now count start 0 }
{
    let mut selected = start;
    let mut total = 0;
    for step in sequence.as_slice() {
        total |= command_touched(&step.command, count, selected);
        selected = bits_after(&step.command, count, selected);
    }
    total
}

/// The components that a command touches, as bits. An inner sequence begins with none selected,
/// since the command itself touches those.
#[cycle(touched)]
fn command_touched(command: &Command, count: u32, selected: u32) -> u32
    requires indexed { IsIndexed count (command_tree command.now) }
    requires few { count ≤ 8 }
    ensures { result ≡ command_touched (command_tree command.now) count selected }
{
    match command {
        Command::Index(_) => 0,
        Command::TryEach(branches) => selected | branches_touched(branches, count),
        Command::Run(inner) => selected | sequence_touched(inner, count, 0),
        _ => selected,
    }
}

#[cycle(touched)]
fn branches_touched(branches: &Branches, count: u32) -> u32
    requires indexed { BranchesIndexed count branches.now }
    requires few { count ≤ 8 }
    ensures { result ≡ branches_touched branches.now count 0 }
{
    let mut total = 0;
    for branch in branches.as_slice() {
        match branch {
            Some(inner) => total |= sequence_touched(inner, count, 0),
            None => {}
        }
    }
    total
}
