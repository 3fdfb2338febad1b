//! Files behind a port.

ghost use Rattle.std.specs.Prelude.{◌≡◌, ◌≤◌, IfSome, ℕ, false, length};

use crate::counting::{counts, fails};
use crate::line::{Line, answer, begin, fill, send};
use crate::message::{Message, Request};
use std::marker::Model;
use suit_edge::{Edge, Host, Pulled, Started};

/// The serial number before the first message about files.
const FIRST: u64 = 1_152_921_504_606_846_976;

/// Files behind a port. Its contracts do not say what they hold.
#[derive(Drop)]
pub struct PortHost {
    line: Line,
    faults: u64,
}

impl Model for PortHost {
    // the count of faults
    ghost Value = { ℕ };

    ghost view = { λ h. h.faults };
}

impl PortHost {
    /// Files behind this port. Sends no message.
    pub fn new(port: i32) -> PortHost
        ensures { result ≡ 0 }
    {
        PortHost {
            line: Line {
                port,
                serial: FIRST,
                lost: false,
            },
            faults: 0,
        }
    }
}

// Asks the port to start a file. It answers 0 if the file is there, and 1 if it is absent.
fn start(line: &mut Line, name: &str) -> Option<u64> {
    let bytes = name.as_bytes();
    if begin(line, Message::plain(Request::Start, bytes.len() as u64)) && send(line, bytes) {
        answer(line)
    } else {
        None
    }
}

// Pulls bytes into the front of `room`, and returns how many came.
fn pull(line: &mut Line, room: &mut [u8]) -> Option<usize>
    ensures { IfSome result (λ n. n ≤ length room.old) }
{
    let most = room.len();
    if !begin(line, Message::plain(Request::Pull, most as u64)) {
        return None;
    }
    let count = answer(line)?;
    if count > most as u64 {
        line.lost = true;
        return None;
    }
    let count = count as usize;
    if fill(line, &mut room[..count]) {
        Some(count)
    } else {
        None
    }
}

fn store(line: &mut Line, name: &str, bytes: &[u8]) -> bool {
    let text = name.as_bytes();
    let message = Message {
        request: Request::Store,
        component: 0,
        place: text.len() as u64,
        length: bytes.len() as u64,
    };
    begin(line, message) && send(line, text) && send(line, bytes) && answer(line) == Some(0)
}

impl Host for PortHost {
    ghost told = { false };

    ghost faults = { λ h. h };

    fn start(&mut self, name: &str) -> Started {
        match start(&mut self.line, name) {
            Some(0) => Started::Done,
            Some(1) => Started::Absent,
            _ => {
                fails(&mut self.faults);
                Started::Failed
            }
        }
    }

    fn pull(&mut self, room: &mut [u8]) -> Pulled {
        match pull(&mut self.line, room) {
            Some(count) => Pulled::Got(count),
            None => {
                fails(&mut self.faults);
                Pulled::Failed
            }
        }
    }

    fn store(&mut self, name: &str, bytes: &[u8]) -> Edge {
        let done = store(&mut self.line, name, bytes);
        counts(&mut self.faults, done)
    }
}
