//! Whether a command runs a condition.

ghost use Rattle.std.specs.Prelude.{◌↔◌, IsTrue};
ghost use Rattle.suit_commands.specs.View.{command_tree};
ghost use Rattle.path_checker.specs.Unconditional.{IsUnconditional, AreUnconditional, FirstIsUnconditional};

use suit_commands::{Branches, Command, Sequence};

/// Whether a command runs no condition, on any path.
#[cycle(unconditional)]
pub(crate) fn is_unconditional(command: &Command) -> bool
    ensures { IsTrue result ↔ IsUnconditional (command_tree command.now) }
{
    match command {
        Command::Test { .. } => false,
        Command::TryEach(branches) => first_is_unconditional(branches),
        Command::Run(inner) => are_unconditional(inner),
        _ => true,
    }
}

#[cycle(unconditional)]
fn are_unconditional(sequence: &Sequence) -> bool
    ensures { IsTrue result ↔ AreUnconditional sequence.now }
{
    for step in sequence.as_slice() {
        if !is_unconditional(&step.command) {
            return false;
        }
    }
    true
}

// A first branch that runs no condition completes, or ends the procedure, so that no other branch is run.
#[cycle(unconditional)]
fn first_is_unconditional(branches: &Branches) -> bool
    ensures { IsTrue result ↔ FirstIsUnconditional branches.now }
{
    let all = branches.as_slice();
    if all.is_empty() {
        return false;
    }
    match &all[0] {
        Some(inner) => are_unconditional(inner),
        None => true,
    }
}
