//! A disk behind a port.

ghost use Rattle.std.specs.Prelude.{◌≡◌, false};
ghost use Rattle.suit_edge.specs.FileDisk.{untold};
ghost use Rattle.suit_port.specs.PortDisk.{PortState};

use crate::counting::counts;
use crate::line::{Line, answer, begin, fill, tell};
use crate::message::{Message, Request};
use std::marker::Model;
use suit_edge::{Disk, Edge};

/// A disk of `size` bytes behind a port. Its contracts do not say what it holds.
#[derive(Drop)]
pub struct PortDisk {
    line: Line,
    size: u64,
    faults: u64,
}

impl Model for PortDisk {
    ghost Value = { PortState };

    ghost view = { λ d. record { size = d.size; faults = d.faults } };
}

impl PortDisk {
    /// A disk of `size` bytes behind this port. Sends no message.
    pub fn new(port: i32, size: u64) -> PortDisk
        ensures { result ≡ record { size = size; faults = 0 } }
    {
        PortDisk {
            line: Line {
                port,
                serial: 0,
                lost: false,
            },
            size,
            faults: 0,
        }
    }
}

fn read(line: &mut Line, place: u64, room: &mut [u8]) -> bool {
    let message = Message {
        request: Request::Read,
        component: 0,
        place,
        length: room.len() as u64,
    };
    begin(line, message) && answer(line) == Some(0) && fill(line, room)
}

fn write(line: &mut Line, place: u64, bytes: &[u8]) -> bool {
    let message = Message {
        request: Request::Write,
        component: 0,
        place,
        length: bytes.len() as u64,
    };
    tell(line, message, bytes)
}

impl Disk for PortDisk {
    ghost use Rattle.std.proofs.Common.{rules};

    ghost told = { false };

    ghost flash = { λ _. untold };

    ghost extent = { λ d. d.size };

    ghost faults = { λ d. d.faults };

    ghost obeys = { λ d told. absurd (Prim.search rules) };

    fn size(&self) -> u64 {
        self.size
    }

    fn read_at(&mut self, place: u64, room: &mut [u8]) -> Edge {
        let done = read(&mut self.line, place, room);
        counts(&mut self.faults, done)
    }

    fn write_at(&mut self, place: u64, bytes: &[u8]) -> Edge {
        let done = write(&mut self.line, place, bytes);
        counts(&mut self.faults, done)
    }

    fn sync(&mut self) -> Edge {
        let done = tell(&mut self.line, Message::plain(Request::Sync, 0), &[]);
        counts(&mut self.faults, done)
    }
}
