//! Where payloads come from.

use crate::Uris;
use suit_envelope::Envelope;

/// An envelope with payloads, if there is one, and files by their URIs.
#[derive(Clone, Copy)]
pub struct Sources<'s> {
    pub envelope: Option<&'s Envelope<'s>>,
    pub uris: &'s Uris,
}
