//! The sequences of a try each.

ghost use Rattle.std.specs.Prelude.{◌≡◌, IsOk, Ok};
ghost use Rattle.suit_commands.specs.Judged.{inner_by};
ghost use Rattle.suit_commands.specs.SequenceReading.{branch_from, branches_from, try_from};
ghost use Rattle.suit_cursor.specs.Lending.{LendsBranch, branch_of};
ghost use Rattle.suit_cursor.specs.Walking.{branch_count, branch_at};

use crate::LentSequence;
use crate::entering::enter_held;
use det_cbor::{Cursor, HeadKind};
use std::marker::Model;
use suit_commands::Rules;
use suit_params::{Why, read_head, read_kind, same_place};

/// The branches of a try each that are left (draft-ietf-suit-manifest-25, section 8.4.10.2),
/// borrowed from bytes that were judged.
#[derive(Drop)]
pub struct LentBranches<'a> {
    cursor: Cursor<'a>,
    left: u64,
    rules: Rules,
}

impl<'a> Model for LentBranches<'a> {
    ghost use Rattle.suit_commands.specs.Tree.{BranchesTree};

    ghost Value = { BranchesTree };

    ghost use Rattle.suit_commands.specs.Codes.{coded_branches};

    ghost coded = { coded_branches };

    ghost use Rattle.suit_cursor.specs.LentParts.{lent_branches, AreBranches};

    ghost view = { λ b. lent_branches b.rules b.left b.cursor };

    ghost invariant = { λ b. AreBranches b.rules b.left b.cursor };
}

/// A branch of a try each.
#[derive(Drop)]
pub enum LentBranch<'a> {
    /// A null, which does nothing.
    Null,
    Inner(LentSequence<'a>),
}

// Borrows the branch at the cursor.
#[tactic(auto, unfolding(suit_commands::specs::SequenceReading::branch_from))]
fn lend_branch<'a>(cursor: &mut Cursor<'a>, last: bool, rules: Rules) -> LentBranch<'a>
    requires { IsOk (branch_from (inner_by rules) last cursor.old) }
    ensures { branch_from (inner_by rules) last cursor.old ≡ Ok (branch_of result, cursor.new) }
{
    let _ = last;
    let place = cursor.place();
    let head = read_head(cursor).unwrap();
    match head.kind {
        HeadKind::Bytes => LentBranch::Inner(enter_held(cursor, place, head.value, rules)),
        _ => LentBranch::Null,
    }
}

// Borrows the next `number` branches. The cursor moves past them, reading only their heads.
fn lend_branches<'a>(cursor: &mut Cursor<'a>, number: u64, rules: Rules) -> LentBranches<'a>
    requires { IsOk (branches_from (inner_by rules) number cursor.old) }
    ensures { branches_from (inner_by rules) number cursor.old ≡ Ok (result, cursor.new) }
{
    let branches = LentBranches {
        cursor: same_place(cursor),
        left: number,
        rules,
    };
    for done in 0..number {
        let others = number - done - 1;
        lend_branch(cursor, others == 0, rules);
    }
    branches
}

/// Borrows the branches of the try each whose array is at the cursor.
#[tactic(auto, unfolding(suit_commands::specs::SequenceReading::try_from))]
pub(crate) fn lend_try<'a>(cursor: &mut Cursor<'a>, rules: Rules) -> LentBranches<'a>
    requires { IsOk (try_from (inner_by rules) cursor.old) }
    ensures { try_from (inner_by rules) cursor.old ≡ Ok (result, cursor.new) }
{
    let number = read_kind(cursor, HeadKind::Array, Why::BadArgument).unwrap();
    lend_branches(cursor, number, rules)
}

impl<'a> LentBranches<'a> {
    /// A copy, which borrows the same branches.
    pub fn copy(&mut self) -> LentBranches<'a>
        ensures copied { result ≡ self.old }
        ensures same { self.new ≡ self.old }
    {
        LentBranches {
            cursor: same_place(&mut self.cursor),
            left: self.left,
            rules: self.rules,
        }
    }

    /// The next branch, or `None` at the end.
    pub fn next(&mut self) -> Option<LentBranch<'a>>
        ensures { LendsBranch self.old self.new result }
    {
        if self.left == 0 {
            return None;
        }
        self.left -= 1;
        Some(lend_branch(&mut self.cursor, self.left == 0, self.rules))
    }

    /// The number of branches left.
    pub fn len(&self) -> u64
        ensures { result ≡ branch_count self.now }
    {
        self.left
    }

    /// The sequence of the branch with this number, if there is one and it is not null.
    pub fn branch(mut self, number: u32) -> Option<LentSequence<'a>>
        ensures { result ≡ branch_at self.entry number }
    {
        for _ in 0..number {
            self.next();
        }
        match self.next() {
            Some(LentBranch::Inner(inner)) => Some(inner),
            _ => None,
        }
    }
}
