//! The head of a message.

ghost use Rattle.std.specs.Prelude.{◌≡◌, IfOk, IsOk};
ghost use Rattle.suit_port.specs.Messages.{head_of};

use crate::message::Message;
use arrayvec::{ArrayVec, CapacityError};

/// The length of a head in bytes.
const HEAD: usize = 32;

/// The head of a message: its request and component, in 4 bytes each, then its serial number, place
/// and length, in 8 bytes each. All are little-endian.
pub(crate) fn head(message: Message, serial: u64) -> Result<ArrayVec<u8, HEAD>, CapacityError>
    ensures fits { IsOk result }
    ensures head { IfOk result (λ h. h.items ≡ head_of serial message) }
{
    let mut head = ArrayVec::new();
    head.try_extend_from_slice(&message.request.number().to_le_bytes())?;
    head.try_extend_from_slice(&message.component.to_le_bytes())?;
    head.try_extend_from_slice(&serial.to_le_bytes())?;
    head.try_extend_from_slice(&message.place.to_le_bytes())?;
    head.try_extend_from_slice(&message.length.to_le_bytes())?;
    Ok(head)
}
