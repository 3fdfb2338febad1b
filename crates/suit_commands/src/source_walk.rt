//! The components that the overrides of a sequence name as source.

ghost use Rattle.std.specs.Prelude.{◌≡◌, ◌≤◌};
ghost use Rattle.std.specs.List.{AllByRecursion};
ghost use Rattle.suit_params.specs.ParamMaking.{IsBelow};
ghost use Rattle.suit_commands.specs.Indexed.{AreIndexed, IsIndexed, BranchesIndexed};
ghost use Rattle.suit_commands.specs.Sources.{sources_of, command_sources, branches_sources, list_sources};
ghost use Rattle.suit_commands.specs.View.{command_tree};

use crate::reach::bit;
use crate::{Branches, Command, Sequence};
use suit_params::{Param, ParamList};

/// The sources that a sequence and those inside it name, as bits.
#[cycle(source)]
pub(crate) fn sequence_sources(sequence: &Sequence, count: u32) -> u32
    requires indexed { AreIndexed count sequence.now }
    requires few { count ≤ 8 }
    ensures { result ≡ sources_of sequence.now 0 }
{
    let mut bits = 0;
    for step in sequence.as_slice() {
        bits |= command_sources(&step.command, count);
    }
    bits
}

#[cycle(source)]
fn command_sources(command: &Command, count: u32) -> u32
    requires indexed { IsIndexed count (command_tree command.now) }
    requires few { count ≤ 8 }
    ensures { result ≡ command_sources (command_tree command.now) }
{
    match command {
        Command::Override(list) => list_sources(list, count),
        Command::TryEach(branches) => branches_sources(branches, count),
        Command::Run(inner) => sequence_sources(inner, count),
        _ => 0,
    }
}

#[cycle(source)]
fn branches_sources(branches: &Branches, count: u32) -> u32
    requires indexed { BranchesIndexed count branches.now }
    requires few { count ≤ 8 }
    ensures { result ≡ branches_sources branches.now 0 }
{
    let mut bits = 0;
    for branch in branches.as_slice() {
        match branch {
            Some(inner) => bits |= sequence_sources(inner, count),
            None => {}
        }
    }
    bits
}

fn list_sources(list: &ParamList, count: u32) -> u32
    requires indexed { AllByRecursion (IsBelow count) list.now }
    requires few { count ≤ 8 }
    ensures { result ≡ list_sources list.now 0 }
{
    let mut bits = 0;
    for param in list.as_slice() {
        match param {
            Param::Source(source) => bits |= bit(*source),
            _ => {}
        }
    }
    bits
}
