//! Rounds of updates.

use author::{Description, FileList};
use det_cbor::Names;

/// An update to be tried.
#[derive(Drop)]
pub struct Round {
    /// The description of the envelope.
    pub description: Description,
    /// The files that the description names, and the one that is fetched.
    pub files: FileList,
    /// The words `URI=NAME` of `run update`.
    pub words: Names,
    /// Whether the payload that is fetched differs from the one that is described.
    pub wrong_payload: bool,
    /// How many calls of the flash pass before its power is lost, if that is to happen.
    pub cut: Option<u64>,
    /// Which of the pending writes survive the loss.
    pub choice: u64,
}
