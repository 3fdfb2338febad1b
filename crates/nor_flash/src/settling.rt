//! Settling a disk: a named block is rewritten, and the names are erased.

ghost use Rattle.nor_flash.specs.Blocks.{front, named, with_block};
ghost use Rattle.nor_flash.specs.NorDisks.{AreErased, AreFirstNames, CanClear, IsQuiet, IsSteady, Knows, blocks_of};
ghost use Rattle.nor_flash.specs.declared.phase.Phase.{Phase};
ghost use Rattle.nor_flash.specs.declared.phase.Phase.TheVariants as phases;
ghost use Rattle.std.specs.Prelude.{◌≡◌, ◌+◌, ◌*◌, ◌<◌, ◌≤◌, ◌⊎◌, IsTrue, Some};
ghost use Rattle.suit_edge.specs.Edge.{IfDone};
ghost use Rattle.suit_edge.specs.Faults.{EdgeCounts};

use crate::{BLOCK, Nor, Phase, blocks};
use suit_edge::Edge;

/// Erases the three names: `first`, then `second`, then the last one.
fn erase_names<N: Nor>(nor: &mut N, first: u64, second: u64) -> Edge
    requires { AreFirstNames first second }
    ensures size { N.extent nor.new ≡ N.extent nor.old }
    ensures counts { EdgeCounts result (N.faults nor.old) (N.faults nor.new) }
    ensures erased { IsTrue N.told
        → IfDone result (AreErased (blocks_of (N.extent nor.old)) (N.flash nor.new).reads) }
    ensures steady { IsTrue N.told → (phase : Phase)
        → (phase ≡ phases.GivenUp) ⊎ (phase ≡ phases.Unsettled)
        → IsQuiet (blocks_of (N.extent nor.old)) phase (N.flash nor.old).reads
        (blocks_of (N.extent nor.old) + first)
        → IsSteady (blocks_of (N.extent nor.old)) phase (N.flash nor.old) phase
        (N.flash nor.new) }
{
    let image = blocks::count(nor);
    match blocks::erase(nor, image + first) {
        Edge::Failed => return Edge::Failed,
        Edge::Done => {}
    }
    match blocks::erase(nor, image + second) {
        Edge::Failed => return Edge::Failed,
        Edge::Done => {}
    }
    blocks::erase(nor, image + 3)
}

/// Erases the names in an order that never makes them newly name a block.
fn clear_names<N: Nor>(nor: &mut N) -> Edge
    ensures size { N.extent nor.new ≡ N.extent nor.old }
    ensures counts { EdgeCounts result (N.faults nor.old) (N.faults nor.new) }
    ensures erased { IsTrue N.told
        → IfDone result (AreErased (blocks_of (N.extent nor.old)) (N.flash nor.new).reads) }
    ensures steady { IsTrue N.told → (phase : Phase)
        → CanClear (blocks_of (N.extent nor.old)) phase (N.flash nor.old).reads
        → IsSteady (blocks_of (N.extent nor.old)) phase (N.flash nor.old) phase
        (N.flash nor.new) }
{
    let image = blocks::count(nor);
    let second = match blocks::name(nor, image + 2) {
        None => return Edge::Failed,
        Some(name) => name,
    };
    let third = match blocks::name(nor, image + 3) {
        None => return Edge::Failed,
        Some(name) => name,
    };
    if second == third {
        erase_names(nor, 2, 1)
    } else {
        erase_names(nor, 1, 2)
    }
}

/// Copies the image block over the named block.
fn rewrite<N: Nor>(nor: &mut N, block: u64) -> Edge
    requires { block < blocks_of (N.extent nor.old) }
    ensures size { N.extent nor.new ≡ N.extent nor.old }
    ensures counts { EdgeCounts result (N.faults nor.old) (N.faults nor.new) }
    ensures named { IsTrue N.told
        → named (blocks_of (N.extent nor.old)) (N.flash nor.old).reads ≡ Some block
        → named (blocks_of (N.extent nor.old)) (N.flash nor.new).reads ≡ Some block }
    ensures copied { IsTrue N.told → IfDone result
        (with_block (blocks_of (N.extent nor.old)) block (N.flash nor.new).reads
        ≡ front (blocks_of (N.extent nor.old)) (N.flash nor.new).reads) }
    ensures steady { IsTrue N.told
        → named (blocks_of (N.extent nor.old)) (N.flash nor.old).reads ≡ Some block
        → IsSteady (blocks_of (N.extent nor.old)) (phases.Rewriting block) (N.flash nor.old)
        (phases.Rewriting block) (N.flash nor.new) }
{
    let image = blocks::count(nor);
    let mut room = [0; BLOCK];
    match nor.read_at(BLOCK as u64 * image, &mut room) {
        Edge::Failed => return Edge::Failed,
        Edge::Done => {}
    }
    match blocks::erase(nor, block) {
        Edge::Failed => return Edge::Failed,
        Edge::Done => {}
    }
    nor.program(BLOCK as u64 * block, &room)
}

/// Rewrites the named block and erases the names. If it fails, the phase says what is left to do.
pub(crate) fn finish<N: Nor>(nor: &mut N, phase: &mut Phase, block: u64) -> Edge
    requires phase { phase.old ≡ phases.Rewriting block }
    requires within { block < blocks_of (N.extent nor.old) }
    requires named { IsTrue N.told
        → named (blocks_of (N.extent nor.old)) (N.flash nor.old).reads ≡ Some block }
    ensures size { N.extent nor.new ≡ N.extent nor.old }
    ensures counts { EdgeCounts result (N.faults nor.old) (N.faults nor.new) }
    ensures settled { IfDone result (phase.new ≡ phases.Settled) }
    ensures knows { Knows N.told (blocks_of (N.extent nor.old)) phase.new (N.flash nor.new).reads }
    ensures steady { IsTrue N.told
        → IsSteady (blocks_of (N.extent nor.old)) (phases.Rewriting block) (N.flash nor.old)
        phase.new (N.flash nor.new) }
{
    let _image = blocks::count(nor);
    match rewrite(nor, block) {
        Edge::Failed => return Edge::Failed,
        Edge::Done => {}
    }
    *phase = Phase::Unsettled;
    match erase_names(nor, 1, 2) {
        Edge::Failed => return Edge::Failed,
        Edge::Done => {}
    }
    *phase = Phase::Settled;
    Edge::Done
}

/// Erases the names when no block is to be rewritten.
fn clear<N: Nor>(nor: &mut N, phase: &mut Phase) -> Edge
    requires clears { IsTrue N.told
        → CanClear (blocks_of (N.extent nor.old)) phase.old (N.flash nor.old).reads }
    requires phase { (phase.old ≡ phases.GivenUp) ⊎ (phase.old ≡ phases.Unsettled) }
    ensures size { N.extent nor.new ≡ N.extent nor.old }
    ensures counts { EdgeCounts result (N.faults nor.old) (N.faults nor.new) }
    ensures settled { IfDone result (phase.new ≡ phases.Settled) }
    ensures knows { Knows N.told (blocks_of (N.extent nor.old)) phase.new (N.flash nor.new).reads }
    ensures steady { IsTrue N.told
        → IsSteady (blocks_of (N.extent nor.old)) phase.old (N.flash nor.old) phase.new
        (N.flash nor.new) }
{
    let _image = blocks::count(nor);
    match clear_names(nor) {
        Edge::Failed => Edge::Failed,
        Edge::Done => {
            *phase = Phase::Settled;
            Edge::Done
        }
    }
}

/// Settles the disk: afterwards no block is named. What the disk reads stays the same.
pub(crate) fn settle<N: Nor>(nor: &mut N, phase: &mut Phase) -> Edge
    requires knows { Knows N.told (blocks_of (N.extent nor.old)) phase.old (N.flash nor.old).reads }
    ensures size { N.extent nor.new ≡ N.extent nor.old }
    ensures counts { EdgeCounts result (N.faults nor.old) (N.faults nor.new) }
    ensures settled { IfDone result (phase.new ≡ phases.Settled) }
    ensures knows { Knows N.told (blocks_of (N.extent nor.old)) phase.new (N.flash nor.new).reads }
    ensures steady { IsTrue N.told
        → IsSteady (blocks_of (N.extent nor.old)) phase.old (N.flash nor.old) phase.new
        (N.flash nor.new) }
    ensures still { phase.old ≡ phases.Settled → nor.new ≡ nor.old }
{
    match *phase {
        Phase::Settled => Edge::Done,
        Phase::GivenUp => clear(nor, phase),
        Phase::Rewriting(block) => finish(nor, phase, block),
        Phase::Unsettled => settle_unknown(nor, phase),
    }
}

/// Settles a disk of whose names nothing is known.
fn settle_unknown<N: Nor>(nor: &mut N, phase: &mut Phase) -> Edge
    requires { phase.old ≡ phases.Unsettled }
    ensures size { N.extent nor.new ≡ N.extent nor.old }
    ensures counts { EdgeCounts result (N.faults nor.old) (N.faults nor.new) }
    ensures settled { IfDone result (phase.new ≡ phases.Settled) }
    ensures knows { Knows N.told (blocks_of (N.extent nor.old)) phase.new (N.flash nor.new).reads }
    ensures steady { IsTrue N.told
        → IsSteady (blocks_of (N.extent nor.old)) phases.Unsettled (N.flash nor.old) phase.new
        (N.flash nor.new) }
{
    match blocks::named_block(nor) {
        None => Edge::Failed,
        Some(None) => clear(nor, phase),
        Some(Some(block)) => {
            *phase = Phase::Rewriting(block);
            finish(nor, phase, block)
        }
    }
}
