//! The parts of an envelope to be made.

use crate::PayloadList;
use det_cbor::Bytes;

/// The parts of an envelope to be made, as the contents of its byte strings.
#[derive(Debug, Drop)]
pub struct EnvelopeParts<'a> {
    /// The authentication wrapper.
    pub wrapper: Bytes,
    pub manifest: Bytes,
    /// The members severed from the manifest.
    pub payload_fetch: Option<Bytes>,
    pub install: Option<Bytes>,
    pub text: Option<Bytes>,
    pub payloads: PayloadList<'a>,
}
