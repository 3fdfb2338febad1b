//! Where one path is after some commands.

ghost use Rattle.std.specs.Prelude.{IfOk};
ghost use Rattle.path_checker.specs.Spelling.{IsAfter};

use crate::judge_plan::inner::{Outer, resume};
use crate::judge_plan::kept::{Kept, Stopped};
use crate::judge_plan::memory::Memory;
use std::alloc::AllocError;

/// Where a path is after some commands of a sequence.
#[derive(Drop)]
pub(crate) enum Turn<'a> {
    /// It goes on in this state.
    On(Kept<'a>),
    /// A condition failed, which ended the sequence.
    Over(Stopped<'a>),
}

/// Where a path is after a failed condition of an inner sequence: a soft failure is passed over, and any other one fails
/// the outer sequence.
pub(crate) fn after_failure<'a>(
    memory: Memory<'a>,
    outer: &Outer<'a>,
    stop: Stopped<'a>,
) -> Result<Turn<'a>, AllocError>
    ensures { IfOk result (λ turn. IsAfter outer.now stop.entry turn) }
{
    if stop.soft_failure {
        return Ok(Turn::On(resume(memory, outer, stop)?));
    }
    let mut stop = stop;
    stop.soft_failure = outer.soft_failure;
    Ok(Turn::Over(stop))
}
