//! Reuses the memory of a list.

ghost use Rattle.std.specs.Prelude.{◌≡◌};

use crate::judge_plan::kept::Kept;
use std::mem;

/// If both lists are empty, gives `next` the memory of `now`.
pub(crate) fn reuse<'a>(now: &mut Vec<Kept<'a>>, next: &mut Vec<Kept<'a>>)
    ensures now { now.new.items ≡ now.old.items }
    ensures next { next.new.items ≡ next.old.items }
{
    if now.is_empty() && next.is_empty() {
        mem::swap(now, next);
    }
}
