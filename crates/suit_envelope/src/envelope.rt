//! An envelope, as its parts within the bytes that spell it.

/// The parts of an envelope (draft-ietf-suit-manifest-25, section 8.2). Each slice but the first is
/// the content of a byte string, and its place is that of the content, in bytes from the start of
/// the envelope. The place of an absent member is 0.
#[derive(Clone, Copy, Debug)]
pub struct Envelope<'a> {
    /// The whole envelope.
    pub whole: &'a [u8],
    /// Whether the envelope has tag 107.
    pub tagged: bool,
    /// The authentication wrapper.
    pub wrapper: &'a [u8],
    pub wrapper_place: u64,
    /// The manifest.
    pub manifest: &'a [u8],
    pub manifest_place: u64,
    /// The severed members that are present.
    pub payload_fetch: Option<&'a [u8]>,
    pub install: Option<&'a [u8]>,
    pub text: Option<&'a [u8]>,
    pub payload_fetch_place: u64,
    pub install_place: u64,
}
