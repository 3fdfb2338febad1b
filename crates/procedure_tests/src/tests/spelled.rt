//! Procedures by the bytes of their parts, as programs and as trees.

ghost use Rattle.procedure_tests.specs.Procedures.{AreReadAs, IsReadAs};
ghost use Rattle.std.specs.Prelude.{◌≡◌, IfOk, IsTrue, false};
ghost use Rattle.step_machine.specs.Programs.{part_tree, program_tree};
ghost use Rattle.suit_commands.specs.Allowed.{IsMember, IsPlan, IsShared};
ghost use Rattle.suit_commands.specs.Tree.{PlanTree, SequenceTree};

use crate::tests::player::COUNT;
use std::alloc::{AllocError, Global};
use step_machine::Program;
use suit_commands::{Sequence, decode_sequence, sequence_laws};
use suit_cursor::LentSequence;

/// The bytes of a procedure's parts.
#[derive(Clone, Copy)]
pub(crate) struct Spelled<'a> {
    pub shared: &'a [u8],
    pub first: &'a [u8],
    pub second: &'a [u8],
    pub third: &'a [u8],
}

/// The trees of a procedure's parts.
#[derive(Drop)]
pub(crate) struct Trees {
    pub shared: Sequence,
    pub first: Sequence,
    pub second: Sequence,
    pub third: Sequence,
}

// Decodes a part. Bytes that are refused return an error.
fn tree(alloc: Global, bytes: &[u8], shared: bool) -> Result<Sequence, AllocError>
    ensures { IfOk result (IsReadAs shared bytes.now) }
{
    match decode_sequence(alloc, bytes, 100, shared, 3) {
        Ok(sequence) => Ok(sequence),
        Err(_) => Err(AllocError),
    }
}

fn lent<'a>(bytes: &'a [u8], shared: bool) -> Option<LentSequence<'a>>
    ensures shared { IsTrue shared → IsShared 3 (part_tree result) }
    ensures member { shared ≡ false → IsMember 3 (part_tree result) }
    ensures read { (sequence : SequenceTree) → IsReadAs shared bytes.now sequence
        → part_tree result ≡ sequence }
{
    sequence_laws();
    LentSequence::new(bytes, 100, shared, 3).ok()
}

impl<'a> Spelled<'a> {
    /// The procedure as trees.
    pub(crate) fn trees(&self, alloc: Global) -> Result<Trees, AllocError>
        ensures { IfOk result (λ trees.
            AreReadAs self.now.shared.now self.now.first.now self.now.second.now self.now.third.now
            (record {
              shared = trees.shared;
              first = trees.first;
              second = trees.second;
              third = trees.third;
              count = 3;
            })) }
    {
        Ok(Trees {
            shared: tree(alloc, self.shared, true)?,
            first: tree(alloc, self.first, false)?,
            second: tree(alloc, self.second, false)?,
            third: tree(alloc, self.third, false)?,
        })
    }

    /// The procedure over its bytes. Parts that are refused are left out.
    pub(crate) fn program(&self) -> Program<'a>
        ensures plan { IsPlan (program_tree result) }
        ensures count { result.count ≡ 3 }
        ensures read { (plan : PlanTree)
            → AreReadAs self.now.shared.now self.now.first.now self.now.second.now self.now.third.now
            plan
            → program_tree result ≡ plan }
    {
        Program {
            shared: lent(self.shared, true),
            first: lent(self.first, false),
            second: lent(self.second, false),
            third: lent(self.third, false),
            count: COUNT as u32,
        }
    }
}
