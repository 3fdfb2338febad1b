//! Whether a procedure may write contents.

ghost use Rattle.std.specs.Prelude.{◌↔◌, IsTrue};
ghost use Rattle.invoke_proc.specs.Writing.{BranchesHaveWriting, CommandHasWriting, HasWriting};
ghost use Rattle.step_machine.specs.Programs.{part_tree, program_tree};
ghost use Rattle.suit_commands.specs.Targets.{InSome, IsWriting};
ghost use Rattle.suit_cursor.specs.Lending.{command_of};

use step_machine::Program;
use suit_commands::ActKind;
use suit_cursor::{LentBranch, LentBranches, LentCommand, LentSequence};

fn is_writing(kind: ActKind) -> bool
    ensures { IsTrue result ↔ IsWriting kind }
{
    match kind {
        ActKind::Write | ActKind::Fetch | ActKind::Copy | ActKind::Swap => true,
        ActKind::Invoke => false,
    }
}

// Whether the sequence, or one inside it, holds a directive that writes.
#[cycle(writing)]
fn has_writing(mut steps: LentSequence<'_>) -> bool
    ensures { IsTrue result ↔ HasWriting steps.entry }
{
    while let Some(step) = steps.next() {
        if command_has_writing(step.command) {
            return true;
        }
    }
    false
}

#[cycle(writing)]
fn command_has_writing(command: LentCommand<'_>) -> bool
    ensures { IsTrue result ↔ CommandHasWriting (command_of command.entry) }
{
    match command {
        LentCommand::Act { kind, .. } => is_writing(kind),
        LentCommand::TryEach(branches) => branches_have_writing(branches),
        LentCommand::Run(inner) => has_writing(inner),
        _ => false,
    }
}

#[cycle(writing)]
fn branches_have_writing(mut branches: LentBranches<'_>) -> bool
    ensures { IsTrue result ↔ BranchesHaveWriting branches.entry }
{
    while let Some(branch) = branches.next() {
        match branch {
            LentBranch::Inner(inner) => {
                if has_writing(inner) {
                    return true;
                }
            }
            LentBranch::Null => {}
        }
    }
    false
}

// An absent sequence has no steps.
fn part_has_writing(part: Option<LentSequence<'_>>) -> bool
    ensures { IsTrue result ↔ HasWriting (part_tree part.entry) }
{
    match part {
        Some(steps) => has_writing(steps),
        None => false,
    }
}

/// Whether the procedure holds a directive that writes contents: a write, a fetch, a copy or a swap.
pub(crate) fn may_write(program: Program<'_>) -> bool
    ensures { IsTrue result ↔ InSome (program_tree program.entry) HasWriting }
{
    let Program {
        shared,
        first,
        second,
        third,
        ..
    } = program;
    let shared = part_has_writing(shared);
    let first = part_has_writing(first);
    let second = part_has_writing(second);
    let third = part_has_writing(third);
    shared || first || second || third
}
