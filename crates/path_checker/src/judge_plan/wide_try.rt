//! Wide try each commands: those outside any inner sequence that may split a state into many, because a branch has many
//! commands or one that is not straight, and whose last branch is a sequence. States run them one at a time. Each has
//! two outcomes at least, so the width bounds how many can follow one another.

ghost use Rattle.std.specs.Prelude.{◌≡◌, IsTrue, IfSome};
ghost use Rattle.suit_commands.specs.Tree.{TryEach};
ghost use Rattle.suit_commands.specs.View.{command_tree};
ghost use Rattle.path_checker.specs.RestViews.{tried_branches};
ghost use Rattle.path_checker.specs.Rests.{AreFew};

use crate::judge_plan::kept::Kept;
use crate::judge_plan::straight::is_straight;
use suit_commands::{Branches, Command, Sequence, Step};

// With more components selected, the procedure would be too wide to judge.
const MOST_SELECTED: usize = 22;

// A longer sequence than this may end in many ways.
const FEW: usize = 8;

/// A try each whose last branch is a sequence, and its place.
#[derive(Clone, Copy)]
pub(crate) struct Tried<'a> {
    pub place: u64,
    pub before: &'a [Option<Sequence>],
    pub last: &'a Sequence,
}

// Splits off the last branch, if that is a sequence.
fn parted(place: u64, branches: &Branches) -> Option<Tried<'_>>
    ensures is { IfSome result (λ tried. tried_branches tried ≡ branches.now) }
    ensures place { IfSome result (λ tried. tried.place ≡ place) }
{
    let all = branches.as_slice();
    if all.is_empty() {
        return None;
    }
    let end = all.len() - 1;
    match &all[end] {
        Some(last) => Some(Tried {
            place,
            before: &all[..end],
            last,
        }),
        None => None,
    }
}

// Whether a sequence may split a state into many, counting those in which it fails.
fn may_split(sequence: &Sequence) -> bool {
    if sequence.as_slice().len() > FEW {
        return true;
    }
    for step in sequence.as_slice() {
        if !is_straight(&step.command) {
            return true;
        }
    }
    false
}

fn any_may_split(tried: Tried<'_>) -> bool {
    for branch in tried.before {
        if let Some(inner) = branch {
            if may_split(inner) {
                return true;
            }
        }
    }
    may_split(tried.last)
}

// Whether few components are selected in each of the states.
fn are_few(states: &[Kept<'_>]) -> bool
    ensures { IsTrue result → AreFew states.now }
{
    for k in states {
        if k.selection.len() > MOST_SELECTED {
            return false;
        }
    }
    true
}

/// The command, if it is a wide try each and few components are selected in each of the states.
pub(crate) fn wide_try<'a>(step: &'a Step, states: &[Kept<'_>]) -> Option<Tried<'a>>
    ensures is { IfSome result
        (λ tried. command_tree step.now.command ≡ TryEach (tried_branches tried)) }
    ensures place { IfSome result (λ tried. tried.place ≡ step.now.place) }
    ensures few { IfSome result (λ tried. AreFew states.now) }
{
    let Command::TryEach(branches) = &step.command else {
        return None;
    };
    let tried = parted(step.place, branches)?;
    if is_straight(&step.command) || !any_may_split(tried) || !are_few(states) {
        return None;
    }
    Some(tried)
}
