//! Copying borrowed sequences.

ghost use Rattle.std.specs.Prelude.{◌≡◌, IfOk};
ghost use Rattle.suit_commands.specs.View.{command_tree};
ghost use Rattle.suit_cursor.specs.Lending.{selection_of, command_of, branch_of};

use crate::{
    LentBranch, LentBranches, LentCommand, LentIndices, LentSelection, LentSequence, ParamView,
};
use std::alloc::{AllocError, Global};
use suit_commands::{Branches, Command, IndexList, Selection, Sequence, Step};
use suit_params::ParamList;

fn copy_indices(alloc: Global, mut left: LentIndices<'_>) -> Result<IndexList, AllocError>
    ensures { IfOk result (λ indices. indices ≡ left.entry) }
{
    let mut indices = IndexList::new(alloc);
    while let Some(index) = left.next() {
        indices.push(index)?;
    }
    Ok(indices)
}

fn copy_selection(alloc: Global, selection: LentSelection<'_>) -> Result<Selection, AllocError>
    ensures { IfOk result (λ s. s ≡ selection_of selection.entry) }
{
    match selection {
        LentSelection::One(component) => Ok(Selection::One(component)),
        LentSelection::All => Ok(Selection::All),
        LentSelection::Listed(indices) => Ok(Selection::Listed(copy_indices(alloc, indices)?)),
    }
}

fn copy_params(alloc: Global, mut left: ParamView<'_>) -> Result<ParamList, AllocError>
    ensures { IfOk result (λ list. list ≡ left.entry) }
{
    let mut list = ParamList::new(alloc);
    while let Some(param) = left.next() {
        list.push(param.copy(alloc)?)?;
    }
    Ok(list)
}

/// Copies the steps of a borrowed sequence. Recurses as deep as the sequences nest.
#[cycle(copy)]
pub fn copy_sequence(alloc: Global, mut left: LentSequence<'_>) -> Result<Sequence, AllocError>
    ensures { IfOk result (λ sequence. sequence ≡ left.entry) }
{
    let mut sequence = Sequence::new(alloc);
    while let Some(step) = left.next() {
        let command = copy_command(alloc, step.command)?;
        sequence.push(Step {
            place: step.place,
            command,
        })?;
    }
    Ok(sequence)
}

#[cycle(copy)]
fn copy_command(alloc: Global, command: LentCommand<'_>) -> Result<Command, AllocError>
    ensures { IfOk result (λ copied. command_tree copied ≡ command_of command.entry) }
{
    match command {
        LentCommand::Test { kind, report } => Ok(Command::Test { kind, report }),
        LentCommand::Act { kind, report } => Ok(Command::Act { kind, report }),
        LentCommand::Index(selection) => Ok(Command::Index(copy_selection(alloc, selection)?)),
        LentCommand::Override(list) => Ok(Command::Override(copy_params(alloc, list)?)),
        LentCommand::TryEach(branches) => Ok(Command::TryEach(copy_branches(alloc, branches)?)),
        LentCommand::Run(inner) => Ok(Command::Run(copy_sequence(alloc, inner)?)),
    }
}

#[cycle(copy)]
fn copy_branch(alloc: Global, branch: LentBranch<'_>) -> Result<Option<Sequence>, AllocError>
    ensures { IfOk result (λ copied. copied ≡ branch_of branch.entry) }
{
    match branch {
        LentBranch::Null => Ok(None),
        LentBranch::Inner(inner) => Ok(Some(copy_sequence(alloc, inner)?)),
    }
}

#[cycle(copy)]
fn copy_branches(alloc: Global, mut left: LentBranches<'_>) -> Result<Branches, AllocError>
    ensures { IfOk result (λ branches. branches ≡ left.entry) }
{
    let mut branches = Branches::new(alloc);
    while let Some(branch) = left.next() {
        branches.push(copy_branch(alloc, branch)?)?;
    }
    Ok(branches)
}
