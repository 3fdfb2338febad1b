//! Parts of procedures.

ghost use Rattle.std.specs.Prelude.{IfOk, IfSome, true, false};
ghost use Rattle.suit_commands.specs.Allowed.{IsSequence, IsShared, IsMember, levels_allowed};
ghost use Rattle.suit_commands.specs.Plans.{lent_tree};

use std::alloc::{AllocError, Global};
use suit_commands::{Sequence, decode_sequence, sequence_laws};

/// The shared sequence or the member that the bytes spell. Other bytes return an error.
pub(crate) fn part(
    alloc: Global,
    bytes: &[u8],
    shared: bool,
    count: u32,
) -> Result<Option<Sequence>, AllocError>
    ensures { IfOk result (λ part. IfSome part (IsSequence shared count levels_allowed)) }
{
    sequence_laws();
    if bytes.is_empty() {
        return Ok(None);
    }
    match decode_sequence(alloc, bytes, 100, shared, count) {
        Ok(sequence) => Ok(Some(sequence)),
        Err(_) => Err(AllocError),
    }
}

pub(crate) fn lend_shared(part: &Option<Sequence>, count: u32) -> Option<&Sequence>
    requires { IfSome part.now (IsSequence true count levels_allowed) }
    ensures { IsShared count (lent_tree result) }
{
    part.as_ref()
}

pub(crate) fn lend_member(part: &Option<Sequence>, count: u32) -> Option<&Sequence>
    requires { IfSome part.now (IsSequence false count levels_allowed) }
    ensures { IsMember count (lent_tree result) }
{
    part.as_ref()
}
