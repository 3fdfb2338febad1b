//! Replacing a whole block of a settled disk.

ghost use Rattle.nor_flash.specs.Blocks.{IsErased, OutsideBlock, front, image_block, name_in, named, plain, with_block};
ghost use Rattle.nor_flash.specs.NorDisks.{AreErased, IsCommit, IsPrepared, IsReplaced, IsSteady, Knows, blocks_of, nor_flash, seen};
ghost use Rattle.nor_flash.specs.declared.phase.Phase.TheVariants as phases;
ghost use Rattle.std.specs.Prelude.{◌≡◌, ◌+◌, ◌*◌, ◌<◌, ◌≤◌, IsTrue, Some, length};
ghost use Rattle.suit_edge.specs.Edge.{IfDone};
ghost use Rattle.suit_edge.specs.Faults.{EdgeCounts};
ghost use Rattle.suit_edge.specs.Flash.{Grows, Keeps};
ghost use Rattle.suit_edge.specs.Ranges.{written};

use crate::settling::finish;
use crate::{BLOCK, Nor, Phase, blocks};
use suit_edge::Edge;

/// Stores the bytes in the image block. They count for nothing while no block is named.
fn store_image<N: Nor>(nor: &mut N, bytes: &[u8]) -> Edge
    requires block { length bytes.now ≡ 4096 }
    requires erased { IsTrue N.told
        → AreErased (blocks_of (N.extent nor.old)) (N.flash nor.old).reads }
    ensures size { N.extent nor.new ≡ N.extent nor.old }
    ensures counts { EdgeCounts result (N.faults nor.old) (N.faults nor.new) }
    ensures erased { IsTrue N.told
        → AreErased (blocks_of (N.extent nor.old)) (N.flash nor.new).reads }
    ensures stored { IsTrue N.told → IfDone result
        (image_block (blocks_of (N.extent nor.old)) (N.flash nor.new).reads ≡ bytes.now) }
    ensures front { IsTrue N.told
        → front (blocks_of (N.extent nor.old)) (N.flash nor.new).reads
        ≡ front (blocks_of (N.extent nor.old)) (N.flash nor.old).reads }
    ensures steady { IsTrue N.told
        → IsSteady (blocks_of (N.extent nor.old)) phases.GivenUp (N.flash nor.old) phases.GivenUp
        (N.flash nor.new) }
{
    let image = blocks::count(nor);
    match blocks::erase(nor, image) {
        Edge::Failed => return Edge::Failed,
        Edge::Done => {}
    }
    nor.program(BLOCK as u64 * image, bytes)
}

/// Sets a name, which must be erased, to a block's number.
fn program_name<N: Nor>(nor: &mut N, name: u64, block: u64) -> Edge
    requires few { name < 4 }
    requires erased { IsTrue N.told
        → IsErased (blocks_of (N.extent nor.old) + name) (N.flash nor.old).reads }
    ensures size { N.extent nor.new ≡ N.extent nor.old }
    ensures counts { EdgeCounts result (N.faults nor.old) (N.faults nor.new) }
    ensures named { IsTrue N.told → IfDone result
        (name_in (blocks_of (N.extent nor.old) + name) (N.flash nor.new).reads ≡ block) }
    ensures keeps { IsTrue N.told → Keeps (OutsideBlock (blocks_of (N.extent nor.old) + name))
        (N.flash nor.old) (N.flash nor.new) }
    ensures grows { IsTrue N.told → Grows (N.flash nor.old) (N.flash nor.new) }
{
    let image = blocks::count(nor);
    nor.program(BLOCK as u64 * (image + name), &block.to_be_bytes())
}

/// Sets the first two names. They do not name the block yet.
fn prepare<N: Nor>(nor: &mut N, block: u64) -> Edge
    requires { IsTrue N.told
        → AreErased (blocks_of (N.extent nor.old)) (N.flash nor.old).reads }
    ensures size { N.extent nor.new ≡ N.extent nor.old }
    ensures counts { EdgeCounts result (N.faults nor.old) (N.faults nor.new) }
    ensures prepared { IsTrue N.told → IfDone result
        (IsPrepared (blocks_of (N.extent nor.old)) block (N.flash nor.new).reads) }
    ensures shown { IsTrue N.told
        → with_block (blocks_of (N.extent nor.old)) block (N.flash nor.new).reads
        ≡ with_block (blocks_of (N.extent nor.old)) block (N.flash nor.old).reads }
    ensures steady { IsTrue N.told
        → IsSteady (blocks_of (N.extent nor.old)) phases.GivenUp (N.flash nor.old) phases.GivenUp
        (N.flash nor.new) }
{
    let _image = blocks::count(nor);
    match program_name(nor, 1, block) {
        Edge::Failed => return Edge::Failed,
        Edge::Done => {}
    }
    program_name(nor, 2, block)
}

/// Sets the last name. From then on the bytes of the block are those in the image block.
fn commit<N: Nor>(nor: &mut N, block: u64) -> Edge
    requires within { block < blocks_of (N.extent nor.old) }
    requires prepared { IsTrue N.told
        → IsPrepared (blocks_of (N.extent nor.old)) block (N.flash nor.old).reads }
    ensures size { N.extent nor.new ≡ N.extent nor.old }
    ensures counts { EdgeCounts result (N.faults nor.old) (N.faults nor.new) }
    ensures committed { IsTrue N.told
        → IsCommit (blocks_of (N.extent nor.old)) block (N.flash nor.old)
        (phases.Rewriting block) (N.flash nor.new) }
    ensures named { IsTrue N.told → IfDone result
        (named (blocks_of (N.extent nor.old)) (N.flash nor.new).reads ≡ Some block) }
    ensures shown { IsTrue N.told → IfDone result
        (plain (blocks_of (N.extent nor.old)) (N.flash nor.new).reads
        ≡ with_block (blocks_of (N.extent nor.old)) block (N.flash nor.old).reads) }
    ensures not_committed { IsTrue N.told
        → IsCommit (blocks_of (N.extent nor.old)) block (N.flash nor.old) phases.GivenUp
        (N.flash nor.new) }
{
    let _image = blocks::count(nor);
    program_name(nor, 3, block)
}

/// Replaces a block of a settled disk. A power loss at any moment leaves the old block or the new
/// one.
pub(crate) fn replace<N: Nor>(nor: &mut N, phase: &mut Phase, block: u64, bytes: &[u8]) -> Edge
    requires settled { phase.old ≡ phases.Settled }
    requires within { block < blocks_of (N.extent nor.old) }
    requires size { length bytes.now ≡ 4096 }
    requires erased { IsTrue N.told
        → AreErased (blocks_of (N.extent nor.old)) (N.flash nor.old).reads }
    ensures size { N.extent nor.new ≡ N.extent nor.old }
    ensures counts { EdgeCounts result (N.faults nor.old) (N.faults nor.new) }
    ensures settled { IfDone result (phase.new ≡ phases.Settled) }
    ensures knows { Knows N.told (blocks_of (N.extent nor.old)) phase.new (N.flash nor.new).reads }
    ensures written { IsTrue N.told → IfDone result
        (seen (blocks_of (N.extent nor.old)) phase.new (N.flash nor.new).reads
        ≡ written (plain (blocks_of (N.extent nor.old)) (N.flash nor.old).reads) (4096 * block)
        bytes.now) }
    ensures replaced { IsTrue N.told → IsReplaced
        (nor_flash (blocks_of (N.extent nor.old)) phases.Settled (N.flash nor.old))
        (nor_flash (blocks_of (N.extent nor.old)) phase.new (N.flash nor.new))
        (written (plain (blocks_of (N.extent nor.old)) (N.flash nor.old).reads) (4096 * block)
        bytes.now) }
{
    let _image = blocks::count(nor);
    *phase = Phase::GivenUp;
    match store_image(nor, bytes) {
        Edge::Failed => return Edge::Failed,
        Edge::Done => {}
    }
    match prepare(nor, block) {
        Edge::Failed => return Edge::Failed,
        Edge::Done => {}
    }
    match commit(nor, block) {
        Edge::Failed => return Edge::Failed,
        Edge::Done => {}
    }
    *phase = Phase::Rewriting(block);
    finish(nor, phase, block)
}
