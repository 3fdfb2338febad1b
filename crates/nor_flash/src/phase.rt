//! What a disk over NOR flash knows of its names.

/// What is known of the three names.
#[derive(Clone, Copy, Debug, PartialEq, Eq)]
pub enum Phase {
    /// Nothing: they may name a block.
    Unsettled,
    /// They are erased.
    Settled,
    /// A rewrite failed before its block was surely named, and no longer counts.
    GivenUp,
    /// They name this block, whose bytes are in the image block.
    Rewriting(u64),
}
