//! The stage that judges a device's description, and the key of a flash.

ghost use Rattle.std.specs.Prelude.{◌≡◌, ◌≤◌, IfOk, length, string_bytes};
ghost use Rattle.flash_layout.specs.Frames.{IsFrame};
ghost use Rattle.flash_layout.specs.declared.frame.TheConstants.{HEAD_SIZE};
ghost use Rattle.flash_layout.specs.Layouts.{IsKey, IsLayout};
ghost use Rattle.suit_cli.specs.Devices.{device_in, key_of, IsFaultLine, pointed_line};
ghost use Rattle.suit_cli.specs.Stages.{Finds};

use crate::json::json_in;
use crate::reply::{Stop, refused_by};
use flash_layout::{Frame, Key, Layout, LayoutFault, layout_of};
use std::alloc::{AllocError, Global};

/// A line with a word and the JSON pointer to a value.
pub(crate) fn pointed_line(alloc: Global, word: &str, pointer: &str) -> Result<String, AllocError>
    ensures { IfOk result (λ t. string_bytes t ≡ pointed_line word.now pointer.now) }
{
    format!(in alloc; "{word} {pointer}\n")
}

/// The line that tells what is wrong with a description.
pub(crate) fn fault_line(alloc: Global, fault: LayoutFault) -> Result<String, AllocError>
    ensures { IfOk result (λ t. IsFaultLine fault (string_bytes t)) }
{
    match fault {
        LayoutFault::BadField(pointer) => pointed_line(alloc, "bad field", pointer.as_str()),
        LayoutFault::BadHex(pointer) => pointed_line(alloc, "bad hex", pointer.as_str()),
        LayoutFault::BadUuid(pointer) => pointed_line(alloc, "bad uuid", pointer.as_str()),
        LayoutFault::TooMany(count) => format!(in alloc; "{count} components\n"),
        LayoutFault::TwoAlike { first, second } => {
            format!(in alloc; "components {first} and {second} are alike\n")
        }
        LayoutFault::Overlap { first, second } => {
            format!(in alloc; "slots of {first} and {second} overlap\n")
        }
        LayoutFault::Outside(component) => format!(in alloc; "slot of {component} is outside\n"),
        LayoutFault::BaseOutside => format!(in alloc; "base is outside\n"),
        LayoutFault::BaseOverlap(component) => {
            format!(in alloc; "base overlaps slot of {component}\n")
        }
        LayoutFault::NoMemory => Err(AllocError),
    }
}

/// The layout and the frame that a description gives for a flash of this size.
pub(crate) fn device_in(alloc: Global, size: u64, bytes: &[u8]) -> Result<(Layout, Frame), Stop>
    ensures finds { Finds (device_in size bytes.now) result }
    ensures allowed { IfOk result (λ described. IsLayout described.1 size described.0) }
    ensures placed { HEAD_SIZE ≤ size
        → IfOk result (λ described. IsFrame size described.1) }
{
    let value = json_in(alloc, bytes)?;
    match layout_of(alloc, &value, size) {
        Ok((layout, frame)) => Ok((layout, frame)),
        Err(fault) => Err(refused_by(fault_line(alloc, fault))),
    }
}

/// The key of 1 to 64 bytes.
pub(crate) fn key_of(bytes: &[u8]) -> Key
    requires some { 1 ≤ length bytes.now }
    requires few { length bytes.now ≤ 64 }
    ensures is { result ≡ key_of bytes.now }
    ensures allowed { IsKey result }
{
    let mut key = [0u8; 64];
    key[..bytes.len()].copy_from_slice(bytes);
    Key {
        bytes: key,
        length: bytes.len() as u8,
    }
}
