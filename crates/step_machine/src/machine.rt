//! The parts of a running procedure that do not change.

use crate::{Program, Standing, Uris};
use flash_slots::Ram;
use suit_envelope::Envelope;

/// The procedure, its components and where their contents stand, and where payloads come from: an envelope, if there is
/// one, and files.
#[derive(Clone, Copy)]
pub(crate) struct Machine<'m> {
    pub program: &'m Program<'m>,
    pub standings: &'m [Standing],
    pub uris: &'m Uris,
    pub envelope: Option<&'m Envelope<'m>>,
}

/// Buffers for two pieces of contents.
#[derive(Drop)]
pub(crate) struct Pieces {
    pub one: [u8; 4096],
    pub other: [u8; 4096],
}

/// The objects that a running procedure works with: the host, the flash, the launcher, working memory, and buffers.
#[derive(Drop)]
pub(crate) struct Work<'w, H, D, L> {
    pub host: &'w mut H,
    pub disk: &'w mut D,
    pub launcher: &'w mut L,
    pub ram: &'w mut Ram,
    pub pieces: &'w mut Pieces,
}
