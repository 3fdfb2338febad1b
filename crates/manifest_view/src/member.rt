//! Borrowed severable members.

use suit_cursor::LentSequence;
use suit_params::Digest;

/// A severable member, which is in the manifest or severed into the envelope.
#[derive(Drop)]
pub enum MemberView<'a> {
    /// There is no such member.
    Empty,
    /// The manifest holds the member.
    Here(LentSequence<'a>),
    /// The member is severed. The manifest states the digest of its whole byte string in the
    /// envelope.
    Apart(Digest),
}

/// The text, as the bytes of one item.
#[derive(Drop)]
pub enum TextView<'a> {
    Empty,
    Here(&'a [u8]),
    Apart(Digest),
}
