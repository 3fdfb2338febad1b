//! Whether a sequence has a swap.

ghost use Rattle.std.specs.Prelude.{◌↔◌, IsTrue};
ghost use Rattle.suit_commands.specs.Targets.{Swaps, CommandSwaps, BranchesSwap};
ghost use Rattle.suit_commands.specs.View.{command_tree};

use crate::{ActKind, Branches, Command, Sequence};

/// Whether the sequence, or one inside it, has a swap.
#[cycle(swap)]
pub(crate) fn has_swap(sequence: &Sequence) -> bool
    ensures { IsTrue result ↔ Swaps sequence.now }
{
    for step in sequence.as_slice() {
        if command_swaps(&step.command) {
            return true;
        }
    }
    false
}

#[cycle(swap)]
fn command_swaps(command: &Command) -> bool
    ensures { IsTrue result ↔ CommandSwaps (command_tree command.now) }
{
    match command {
        Command::Act { kind, .. } => *kind == ActKind::Swap,
        Command::TryEach(branches) => branches_swap(branches),
        Command::Run(inner) => has_swap(inner),
        _ => false,
    }
}

#[cycle(swap)]
fn branches_swap(branches: &Branches) -> bool
    ensures { IsTrue result ↔ BranchesSwap branches.now }
{
    for branch in branches.as_slice() {
        match branch {
            Some(inner) => {
                if has_swap(inner) {
                    return true;
                }
            }
            None => {}
        }
    }
    false
}
