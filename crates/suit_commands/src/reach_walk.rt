//! The components that a sequence writes. Each inner sequence is walked once, whichever components
//! are selected there.

ghost use Rattle.std.specs.Prelude.{◌≡◌, ◌≤◌};
ghost use Rattle.suit_commands.specs.Indexed.{AreIndexed, IsIndexed, BranchesIndexed};
ghost use Rattle.suit_commands.specs.Reaches.{no_reach, start_reach, reach_after, reach_of, command_reach, branches_reach};
ghost use Rattle.suit_commands.specs.View.{command_tree};

use crate::reach::{Reach, selection_bits};
use crate::{ActKind, Branches, Command, Sequence};

/// The components selected after a command.
fn reach_after(command: &Command, count: u32, selected: Reach) -> Reach
    requires indexed { IsIndexed count (command_tree command.now) }
    requires few { count ≤ 8 }
    ensures { result ≡ reach_after (command_tree command.now) count selected }
{
    match command {
        Command::Index(selection) => Reach {
            fixed: selection_bits(selection, count),
            start: false,
        },
        _ => selected,
    }
}

/// The components that a sequence writes.
#[cycle(reach)]
pub(crate) fn sequence_reach(sequence: &Sequence, count: u32) -> Reach
    requires indexed { AreIndexed count sequence.now }
    requires few { count ≤ 8 }
    ensures { result ≡ reach_of sequence.now count start_reach no_reach }
{
    let mut selected = Reach::at_start();
    let mut total = Reach::nothing();
    for step in sequence.as_slice() {
        let part = command_reach(&step.command, count);
        total = total.or(part.through(selected));
        selected = reach_after(&step.command, count, selected);
    }
    total
}

/// The components that a command writes.
#[cycle(reach)]
fn command_reach(command: &Command, count: u32) -> Reach
    requires indexed { IsIndexed count (command_tree command.now) }
    requires few { count ≤ 8 }
    ensures { result ≡ command_reach (command_tree command.now) count }
{
    match command {
        Command::Act { kind, .. } => Reach {
            fixed: 0,
            start: *kind != ActKind::Invoke,
        },
        Command::TryEach(branches) => branches_reach(branches, count),
        Command::Run(inner) => sequence_reach(inner, count),
        _ => Reach::nothing(),
    }
}

/// The components that all sequences of a try each write.
#[cycle(reach)]
fn branches_reach(branches: &Branches, count: u32) -> Reach
    requires indexed { BranchesIndexed count branches.now }
    requires few { count ≤ 8 }
    ensures { result ≡ branches_reach branches.now count no_reach }
{
    let mut total = Reach::nothing();
    for branch in branches.as_slice() {
        match branch {
            Some(inner) => total = total.or(sequence_reach(inner, count)),
            None => {}
        }
    }
    total
}
