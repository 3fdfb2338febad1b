//! The answer of a command.

use crate::reply::{Reply, Stop};
use det_cbor::Text;
use invoke_proc::BootEnd;
use update_proc::UpdateEnd;

/// The answer of a command, before it is put.
#[derive(Debug, Drop)]
pub(crate) enum Answer {
    /// A reply, or why there is none.
    Said(Result<Reply, Stop>),
    /// How a boot ended, and the lines that tell it.
    Booted(BootEnd, Text),
    /// How an update ended, and the lines that tell it.
    Updated(UpdateEnd, Text),
}
