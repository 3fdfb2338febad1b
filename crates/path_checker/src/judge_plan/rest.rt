//! What is left to run after the current commands, up to the end of the procedure.

ghost use Rattle.std.specs.Prelude.{◌≡◌, ◌∷◌, IfOk};
ghost use Rattle.path_checker.specs.RestViews.{all_of};
ghost use Rattle.path_checker.specs.Rests.{OfLeave};

use crate::judge_plan::kept::Kept;
use crate::judge_plan::memory::Memory;
use crate::judge_plan::selected::Selected;
use crate::judge_plan::wide_try::Tried;
use std::alloc::AllocError;
use std::marker::Model;
use suit_commands::Step;

/// The rest of a procedure.
#[cycle(rest)]
#[derive(Drop)]
pub(crate) struct Rest<'a> {
    pub first: First<'a>,
}

/// What is run next, and the rest after that.
#[cycle(rest)]
#[derive(Drop)]
pub(crate) enum First<'a> {
    /// The end of the procedure.
    End,
    /// A member or the shared sequence.
    Part(&'a [Step], &'a Rest<'a>),
    /// More commands of a sequence.
    Steps(&'a [Step], &'a Rest<'a>),
    /// A try each at each of these components, from an index on.
    Tries(Tried<'a>, Selected<'a>, usize, &'a Rest<'a>),
    /// The end of a completed branch, which restores the selection and soft failure.
    Leave(Selected<'a>, bool, &'a Rest<'a>),
}

impl<'a> Model for Rest<'a> {
    ghost use Rattle.std.specs.Prelude.{List, length};
    ghost use Rattle.path_checker.specs.Rests.{Later};

    ghost Value = { List Later };

    ghost use Rattle.std.specs.Coded.{codes};
    ghost use Rattle.suit_commands.specs.Codes.{coded_sequence, coded_branches};

    ghost coded = { Prim.hlevel (codes, coded_sequence, coded_branches) };

    ghost use Rattle.path_checker.specs.RestViews.{all_of};

    ghost view = { λ a. all_of a.first };

    ghost size = { length };

    ghost use Rattle.path_checker.specs.RestFalls.{rest_falls};

    ghost size_decreases = { λ a h. rest_falls a.first };
}

impl<'a> Rest<'a> {
    /// Allocates a rest that begins with this. It is freed when the judgement ends.
    pub(crate) fn of(memory: Memory<'a>, first: First<'a>) -> Result<&'a Rest<'a>, AllocError>
        ensures { IfOk result (λ rest. rest.now ≡ all_of first.entry) }
    {
        let rest = memory.last.arena.try_alloc(Rest { first })?;
        Ok(rest)
    }

    /// The end of a branch that was entered from this state, and then `behind`.
    pub(crate) fn leave(
        memory: Memory<'a>,
        k: &Kept<'a>,
        behind: &'a Rest<'a>,
    ) -> Result<&'a Rest<'a>, AllocError>
        ensures { IfOk result
            (λ rest. rest.now
            ≡ OfLeave k.now.state.selection k.now.state.soft_failure ∷ behind.now) }
    {
        let first = First::Leave(k.selection.copy(), k.soft_failure, behind);
        let rest = Rest::of(memory, first)?;
        Ok(rest)
    }
}
