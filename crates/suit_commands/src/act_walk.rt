//! Whether a sequence has a directive of some kind.

ghost use Rattle.std.specs.Prelude.{◌↔◌, IsTrue};
ghost use Rattle.suit_commands.specs.Touches.{HasAct, CommandHasAct, BranchesHaveAct};
ghost use Rattle.suit_commands.specs.View.{command_tree};

use crate::{ActKind, Branches, Command, Sequence};

/// Whether the sequence, or one inside it, has a directive of this kind.
#[cycle(act)]
pub(crate) fn has_act(sequence: &Sequence, wanted: ActKind) -> bool
    ensures { IsTrue result ↔ HasAct wanted sequence.now }
{
    for step in sequence.as_slice() {
        if command_has_act(&step.command, wanted) {
            return true;
        }
    }
    false
}

#[cycle(act)]
fn command_has_act(command: &Command, wanted: ActKind) -> bool
    ensures { IsTrue result ↔ CommandHasAct wanted (command_tree command.now) }
{
    match command {
        Command::Act { kind, .. } => *kind == wanted,
        Command::TryEach(branches) => branches_have_act(branches, wanted),
        Command::Run(inner) => has_act(inner, wanted),
        _ => false,
    }
}

#[cycle(act)]
fn branches_have_act(branches: &Branches, wanted: ActKind) -> bool
    ensures { IsTrue result ↔ BranchesHaveAct wanted branches.now }
{
    for branch in branches.as_slice() {
        match branch {
            Some(inner) => {
                if has_act(inner, wanted) {
                    return true;
                }
            }
            None => {}
        }
    }
    false
}
