//! Writing command sequences.

ghost use Rattle.std.specs.Prelude.{◌≡◌, ◌++◌, ◌<◌, IfOk, OnOk};
ghost use Rattle.det_cbor.specs.DataItem.{ArrayOf, NullItem, spell, spell_items};
ghost use Rattle.suit_commands.specs.SequenceMaking.{code_of, step_items, argument_item, branch_items, sequence_item, inner_item};
ghost use Rattle.suit_commands.specs.SequenceWriting.{StepsFit, CommandFits, SequenceFits, InnerFits, IsWrittenSequence};
ghost use Rattle.suit_commands.specs.Tree.{TryEach};
ghost use Rattle.suit_commands.specs.View.{command_tree};

use crate::writing::push_selection;
use crate::{Branches, Command, Sequence};
use det_cbor::{Bytes, push_count, push_null, push_number, push_string};
use std::alloc::{AllocError, Global};
use suit_params::write_params;

/// Encodes a sequence's array in its one spelling (draft-ietf-suit-manifest-25, section 8.4.6).
/// Each inner sequence is encoded on its own and put into a byte string.
///
/// Any tree is written, even one that the grammar refuses, such as an empty sequence or a null
/// before another branch. The places of the steps are ignored. Recurses as deep as the sequences
/// nest.
pub fn encode_sequence(alloc: Global, sequence: &Sequence) -> Result<Bytes, AllocError>
    ensures spelling { IfOk result (λ bytes. bytes ≡ spell (sequence_item sequence.now)) }
    ensures written { IfOk result (IsWrittenSequence sequence.now) }
    ensures fits { IfOk result (λ _. SequenceFits sequence.now) }
{
    let mut out = Bytes::new(alloc);
    push_sequence(alloc, &mut out, sequence)?;
    Ok(out)
}

fn code(command: &Command) -> u8
    ensures { result ≡ code_of (command_tree command.now) }
{
    match command {
        Command::Test { kind, .. } => kind.number(),
        Command::Act { kind, .. } => kind.number(),
        Command::Index(_) => 12,
        Command::Override(_) => 20,
        Command::TryEach(_) => 15,
        Command::Run(_) => 32,
    }
}

#[cycle(push)]
fn push_sequence(alloc: Global, out: &mut Bytes, sequence: &Sequence) -> Result<(), AllocError>
    ensures ok { OnOk result (out.new ≡ out.old ++ spell (sequence_item sequence.now)) }
    ensures fits { OnOk result (SequenceFits sequence.now) }
{
    push_count(out, 2 * sequence.as_slice().len() as u64)?;
    push_steps(alloc, out, sequence)?;
    Ok(())
}

#[cycle(push)]
fn push_steps(alloc: Global, out: &mut Bytes, sequence: &Sequence) -> Result<(), AllocError>
    ensures ok { OnOk result (out.new ≡ out.old ++ spell_items (step_items sequence.now)) }
    ensures fit { OnOk result (StepsFit sequence.now) }
{
    for step in &sequence.held {
        push_number(out, code(&step.command) as u64)?;
        push_argument(alloc, out, &step.command)?;
    }
    Ok(())
}

#[cycle(push)]
fn push_argument(alloc: Global, out: &mut Bytes, command: &Command) -> Result<(), AllocError>
    ensures ok { OnOk result
        (out.new ≡ out.old ++ spell (argument_item (command_tree command.now))) }
    ensures fits { OnOk result (CommandFits (command_tree command.now)) }
{
    match command {
        Command::Test { report, .. } | Command::Act { report, .. } => {
            push_number(out, *report as u64)
        }
        Command::Index(selection) => push_selection(out, selection),
        Command::Override(list) => write_params(alloc, list, out),
        Command::TryEach(branches) => push_tries(alloc, out, branches),
        Command::Run(inner) => push_inner(alloc, out, inner),
    }
}

// Appends a byte string that holds a sequence.
#[cycle(push)]
fn push_inner(alloc: Global, out: &mut Bytes, inner: &Sequence) -> Result<(), AllocError>
    ensures ok { OnOk result (out.new ≡ out.old ++ spell (inner_item inner.now)) }
    ensures fits { OnOk result (InnerFits inner.now) }
{
    let mut content = Bytes::new(alloc);
    push_sequence(alloc, &mut content, inner)?;
    push_string(out, content.as_slice())?;
    Ok(())
}

#[cycle(push)]
fn push_tries(alloc: Global, out: &mut Bytes, branches: &Branches) -> Result<(), AllocError>
    ensures ok { OnOk result (out.new ≡ out.old ++ spell (ArrayOf (branch_items branches.now))) }
    ensures fit { OnOk result (CommandFits (TryEach branches.now)) }
{
    push_count(out, branches.held.len() as u64)?;
    for branch in &branches.held {
        match branch {
            Some(inner) => push_inner(alloc, out, inner)?,
            None => push_null(out)?,
        }
    }
    Ok(())
}
