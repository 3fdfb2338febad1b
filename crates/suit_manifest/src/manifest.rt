//! Manifests.

use det_cbor::{Bytes, Text};
use suit_commands::Sequence;
use suit_params::{Digest, Identifiers};

/// A severable member, which is in the manifest or severed into the envelope.
#[derive(Debug, Drop)]
pub enum Member {
    /// There is no such member.
    Empty,
    /// The manifest holds the member.
    Here(Sequence),
    /// The member is severed. The manifest states the digest of its whole byte string in the
    /// envelope.
    Apart(Digest),
}

/// The text, which is kept as the bytes of one item and not read.
#[derive(Debug, Drop)]
pub enum TextMember {
    Empty,
    Here(Bytes),
    Apart(Digest),
}

/// A manifest (draft-ietf-suit-manifest-25, section 8.4). Places are in bytes from the start of the
/// envelope.
#[derive(Debug, Drop)]
pub struct Manifest {
    /// The sequence number, which grows with each manifest of a device.
    pub sequence: u64,
    pub components: Identifiers,
    /// The commands that are run before each member.
    pub shared: Option<Sequence>,
    pub reference: Option<Text>,
    pub validate: Option<Sequence>,
    pub load: Option<Sequence>,
    pub invoke: Option<Sequence>,
    pub payload_fetch: Member,
    pub install: Member,
    pub text: TextMember,
}

/// The severed members, as the envelope holds them.
#[derive(Debug, Drop)]
pub struct Members {
    pub payload_fetch: Option<Sequence>,
    pub install: Option<Sequence>,
}
