//! Whether a sequence holds an invoke.

ghost use Rattle.std.specs.Prelude.{◌↔◌, IsTrue};
ghost use Rattle.suit_commands.specs.Plans.{lent_tree};
ghost use Rattle.suit_commands.specs.View.{command_tree};
ghost use Rattle.path_checker.specs.Invoking.{Invokes, CommandInvokes, BranchesInvoke};

use suit_commands::{ActKind, Branches, Command, Sequence};

// Whether the sequence, or one inside it, holds an invoke.
#[cycle(invoking)]
fn has_invoke(sequence: &Sequence) -> bool
    ensures { IsTrue result ↔ Invokes sequence.now }
{
    for step in sequence.as_slice() {
        if command_invokes(&step.command) {
            return true;
        }
    }
    false
}

#[cycle(invoking)]
fn command_invokes(command: &Command) -> bool
    ensures { IsTrue result ↔ CommandInvokes (command_tree command.now) }
{
    match command {
        Command::Act { kind, .. } => *kind == ActKind::Invoke,
        Command::TryEach(branches) => branches_invoke(branches),
        Command::Run(inner) => has_invoke(inner),
        _ => false,
    }
}

#[cycle(invoking)]
fn branches_invoke(branches: &Branches) -> bool
    ensures { IsTrue result ↔ BranchesInvoke branches.now }
{
    for branch in branches.as_slice() {
        match branch {
            Some(inner) => {
                if has_invoke(inner) {
                    return true;
                }
            }
            None => {}
        }
    }
    false
}

/// Whether a sequence, which may be absent, holds an invoke.
pub(crate) fn lent_invokes(lent: Option<&Sequence>) -> bool
    ensures { IsTrue result ↔ Invokes (lent_tree lent.entry) }
{
    match lent {
        Some(sequence) => has_invoke(sequence),
        None => false,
    }
}
