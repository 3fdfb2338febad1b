//! What is to be installed.

use flash_layout::Places;
use step_machine::Uris;
use suit_envelope::Envelope;
use suit_manifest::{Manifest, Members};

/// An update: an envelope whose manifest and members were judged, where the flash has the manifest's components, and
/// the files that URIs name.
#[derive(Clone, Copy)]
pub struct Update<'a> {
    pub envelope: &'a Envelope<'a>,
    pub manifest: &'a Manifest,
    pub members: &'a Members,
    pub places: &'a Places,
    pub uris: &'a Uris,
}
