//! A launcher behind a port.

ghost use Rattle.std.specs.Prelude.{◌≡◌, [], ℕ, false};

use crate::counting::fails;
use crate::line::{Line, tell};
use crate::message::{Message, Request};
use std::marker::Model;
use suit_edge::{Disk, Image, Label, Launched, Launcher};

/// The serial number before the first message about launches.
const FIRST: u64 = 2_305_843_009_213_693_952;

/// A launcher behind a port. The port is told the arguments, if there are any, and then where in
/// the flash the image is, or its bytes. Its contracts do not say what it launched.
#[derive(Drop)]
pub struct PortLauncher {
    line: Line,
    faults: u64,
}

impl Model for PortLauncher {
    // the count of faults
    ghost Value = { ℕ };

    ghost view = { λ l. l.faults };
}

impl PortLauncher {
    /// A launcher behind this port. Sends no message.
    pub fn new(port: i32) -> PortLauncher
        ensures { result ≡ 0 }
    {
        PortLauncher {
            line: Line {
                port,
                serial: FIRST,
                lost: false,
            },
            faults: 0,
        }
    }
}

// Sends a message about a component, with the bytes that follow it.
fn about(line: &mut Line, request: Request, component: u32, bytes: &[u8]) -> bool {
    let message = Message {
        request,
        component,
        place: 0,
        length: bytes.len() as u64,
    };
    tell(line, message, bytes)
}

fn launch(line: &mut Line, image: Image<'_>, component: u32) -> bool {
    match image {
        Image::Flash { place, length } => {
            let message = Message {
                request: Request::LaunchFlash,
                component,
                place,
                length,
            };
            tell(line, message, &[])
        }
        Image::Ram(bytes) => about(line, Request::LaunchMemory, component, bytes),
    }
}

// Sends the arguments, if there are any, and then the image.
fn launch_with(line: &mut Line, image: Image<'_>, label: Label<'_>) -> bool {
    let told = match label.args {
        Some(args) => about(line, Request::Arguments, label.component, args),
        None => true,
    };
    told && launch(line, image, label.component)
}

impl Launcher for PortLauncher {
    ghost told = { false };

    ghost launches = { λ _. [] };

    ghost faults = { λ l. l };

    fn launch<D: Disk>(&mut self, _disk: &mut D, image: Image<'_>, label: Label<'_>) -> Launched {
        if launch_with(&mut self.line, image, label) {
            return Launched::Done;
        }
        fails(&mut self.faults);
        Launched::Failed
    }
}
