//! The connection to a port.

use crate::head::head;
use crate::message::Message;
use io::{read_full, write_all};

/// The connection to a port. It is lost for good once a message was not fully taken, or its answer
/// did not fully come or is that of another message: whatever is read next could answer yet another
/// one.
#[derive(Drop)]
pub(crate) struct Line {
    /// The number that both functions of the port are called with.
    pub(crate) port: i32,
    /// The serial number of the last message.
    pub(crate) serial: u64,
    pub(crate) lost: bool,
}

// Marks the line as lost if a transfer failed.
fn keeps(line: &mut Line, done: bool) -> bool {
    if !done {
        line.lost = true;
    }
    done
}

/// Sends the head of a message, with the next serial number. Returns whether the port took it.
pub(crate) fn begin(line: &mut Line, message: Message) -> bool {
    if line.lost {
        return false;
    }
    line.serial = line.serial.wrapping_add(1);
    let done = match head(message, line.serial) {
        Ok(head) => write_all(line.port, head.as_slice()),
        Err(_) => false,
    };
    keeps(line, done)
}

/// Sends the bytes that follow a message. Returns whether the port took them.
pub(crate) fn send(line: &mut Line, bytes: &[u8]) -> bool {
    let done = !line.lost && write_all(line.port, bytes);
    keeps(line, done)
}

/// Reads an answer of 16 bytes: the serial number of the message, and a number, both little-endian.
/// `None` if it does not come, or answers another message.
pub(crate) fn answer(line: &mut Line) -> Option<u64> {
    if line.lost {
        return None;
    }
    let mut serial = [0u8; 8];
    let mut number = [0u8; 8];
    let came = read_full(line.port, &mut serial) == 8
        && read_full(line.port, &mut number) == 8
        && u64::from_le_bytes(serial) == line.serial;
    if keeps(line, came) {
        Some(u64::from_le_bytes(number))
    } else {
        None
    }
}

/// Fills `room` with the bytes that follow an answer. Returns whether all of them came.
pub(crate) fn fill(line: &mut Line, room: &mut [u8]) -> bool {
    let most = room.len();
    let done = !line.lost && read_full(line.port, room) == most;
    keeps(line, done)
}

/// Sends a message and the bytes that follow it. Returns whether the port answers 0.
pub(crate) fn tell(line: &mut Line, message: Message, bytes: &[u8]) -> bool {
    begin(line, message) && send(line, bytes) && answer(line) == Some(0)
}
