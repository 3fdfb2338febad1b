//! An output behind a port.

ghost use Rattle.std.specs.Prelude.{◌≡◌, [], ℕ, false};

use crate::counting::counts;
use crate::line::{Line, tell};
use crate::message::{Message, Request};
use std::marker::Model;
use suit_edge::{Edge, Sink};

/// The serial number before the first message about output.
const FIRST: u64 = 3_458_764_513_820_540_928;

/// An output behind a port. Its contracts do not say what was put.
#[derive(Drop)]
pub struct PortSink {
    line: Line,
    faults: u64,
}

impl Model for PortSink {
    // the count of faults
    ghost Value = { ℕ };

    ghost view = { λ s. s.faults };
}

impl PortSink {
    /// An output behind this port. Sends no message.
    pub fn new(port: i32) -> PortSink
        ensures { result ≡ 0 }
    {
        PortSink {
            line: Line {
                port,
                serial: FIRST,
                lost: false,
            },
            faults: 0,
        }
    }
}

impl Sink for PortSink {
    ghost told = { false };

    ghost put_bytes = { λ _. [] };

    ghost faults = { λ s. s };

    fn put(&mut self, piece: &[u8]) -> Edge {
        let message = Message::plain(Request::Put, piece.len() as u64);
        let done = tell(&mut self.line, message, piece);
        counts(&mut self.faults, done)
    }
}
