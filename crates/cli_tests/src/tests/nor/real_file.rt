//! What no clause says of the real device: what its file holds.

use nor_flash::{FileNor, Nor};
use std::alloc::{AllocError, Global};
use std::fs;
use suit_edge::Edge;

const NAME: &str = "suit.nor";

// Whether these bytes begin so, and all others are 0xFF.
fn are_erased_past(found: &[u8], bytes: &[u8]) -> bool {
    for place in 0..found.len() {
        let wanted = if place < bytes.len() {
            bytes[place]
        } else {
            0xff
        };
        if found[place] != wanted {
            return false;
        }
    }
    true
}

// Whether the file has the device's size, begins with these bytes, and all others are 0xFF.
fn holds(rt: &HostRuntime, bytes: &[u8]) -> bool {
    match fs::read(rt, NAME) {
        Ok(file) => file.len() == 4_210_688 && are_erased_past(file.as_slice(), bytes),
        Err(_) => false,
    }
}

// Whether bytes are programmed at the start of the device, opened anew.
fn programs(rt: &HostRuntime, bytes: &[u8; 3]) -> bool {
    FileNor::new(rt).program(0, bytes) == Edge::Done
}

// Whether the first block is erased.
fn erases(rt: &HostRuntime) -> bool {
    FileNor::new(rt).erase(0) == Edge::Done
}

// Whether the file is made of these bytes.
fn lays(rt: &HostRuntime, bytes: &[u8]) -> bool {
    fs::write(rt, NAME, bytes).is_ok()
}

fn removes(rt: &HostRuntime) -> bool {
    fs::remove_file(rt, NAME).is_ok()
}

#[test]
fn a_real_device_is_filled_programmed_and_erased(rt: HostRuntime) {
    assert!(rt; !FileNor::is_there(&rt));
    assert!(rt; lays(&rt, b"\xf0"));
    assert!(rt; FileNor::is_there(&rt));
    assert!(rt; programs(&rt, b"\x9f\xff\x00"));
    assert!(rt; holds(&rt, b"\x90\xff\x00"), "filled and cleared");
    assert!(rt; erases(&rt));
    assert!(rt; holds(&rt, b""), "erased");
    assert!(rt; removes(&rt));
}
