//! Writing the parts of a sequence of commands.

ghost use Rattle.std.specs.Prelude.{◌≡◌, ◌++◌, true, length, OnOk};
ghost use Rattle.std.specs.List.{AllByRecursion};
ghost use Rattle.det_cbor.specs.DataItem.{UnsignedInteger, ByteString, Boolean, NullItem, spell, spell_items, IsString};
ghost use Rattle.det_cbor.specs.Heads.{head_bytes};
ghost use Rattle.det_cbor.specs.HeadSpelling.{spelled, IsValueOf};
ghost use Rattle.suit_commands.specs.SequenceMaking.{selection_item};
ghost use Rattle.suit_commands.specs.declared.selection.Selection.TheVariants.{Listed};
ghost use Rattle.suit_commands.specs.SequenceWriting.{IsU64, SelectionFits};
ghost use Rattle.suit_commands.specs.Sequences.{index_items};

use crate::{IndexList, Selection};
use det_cbor::{Bytes, push_count, push_flag, push_number};
use std::alloc::AllocError;

fn push_indices(out: &mut Bytes, indices: &IndexList) -> Result<(), AllocError>
    ensures ok { OnOk result (out.new ≡ out.old ++ spell_items (index_items indices.now)) }
    ensures fit { OnOk result (AllByRecursion IsU64 indices.now) }
{
    for index in indices.as_slice() {
        push_number(out, *index as u64)?;
    }
    Ok(())
}

fn push_list(out: &mut Bytes, indices: &IndexList) -> Result<(), AllocError>
    ensures ok { OnOk result (out.new ≡ out.old ++ spell (selection_item (Listed indices.now))) }
    ensures fits { OnOk result (SelectionFits (Listed indices.now)) }
{
    push_count(out, indices.len() as u64)?;
    push_indices(out, indices)?;
    Ok(())
}

/// Appends the argument of a set component index (draft-ietf-suit-manifest-25, section 8.4.10.1).
pub(crate) fn push_selection(out: &mut Bytes, selection: &Selection) -> Result<(), AllocError>
    ensures ok { OnOk result (out.new ≡ out.old ++ spell (selection_item selection.now)) }
    ensures fits { OnOk result (SelectionFits selection.now) }
{
    match selection {
        Selection::One(component) => push_number(out, *component as u64),
        Selection::All => push_flag(out, true),
        Selection::Listed(indices) => push_list(out, indices),
    }
}
