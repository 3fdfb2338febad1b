//! The stored envelope with a damaged byte.

ghost use Rattle.std.specs.Prelude.{◌<◌, length};

use crate::bytes::pieces_of;
use crate::fails::{Fails, Object};
use crate::faults::fault_with;
use crate::files::blank;
use crate::tests::damage::counts::{CHANGES, are_counted};
use std::alloc::{AllocError, Global};
use suit_edge::{Host, MemoryHost};

/// The bytes of `crates/suit/data/e1.suit`.
const STORED: &str =
    "d86ba2025827815824822f5820 00*32 035847a501010201035835a2028181410004582c8214a2035824822f5820ba7816bf8f01cfea414140de5dae2223b00361a396177a9cb410ff61f20015ad0e03074382030f094382170f";

/// The digests may be any, of which only the owner's key would tell; and a few other bytes leave a manifest that is safe.
const CHECKED: &str = "0 202
3 155";

// The status of `check` on the file `e`.
fn checked_by<H: Host>(alloc: Global, host: &mut H) -> Result<u8, AllocError> {
    let mut flash = blank(alloc, &[])?;
    fault_with(
        alloc,
        "check e",
        &Fails::of(Object::Host, &[]),
        host,
        &mut flash,
    )
}

fn checked(alloc: Global, bytes: &[u8]) -> Result<u8, AllocError> {
    let mut host = MemoryHost::new(alloc, &[])?;
    host.add("e", bytes)?;
    checked_by(alloc, &mut host)
}

fn checked_with(alloc: Global, bytes: &[u8], place: usize, change: u8) -> Result<u8, AllocError>
    requires { place < length bytes.now }
{
    let mut damaged = bytes.to_vec(alloc)?;
    damaged[place] ^= change;
    checked(alloc, damaged.as_slice())
}

fn push_checked(
    alloc: Global,
    bytes: &[u8],
    place: usize,
    statuses: &mut Vec<u8>,
) -> Result<(), AllocError>
    requires { place < length bytes.now }
{
    for change in &CHANGES {
        statuses.push(checked_with(alloc, bytes, place, *change)?)?;
    }
    Ok(())
}

// How `check` ends with each byte damaged.
fn all_checked(alloc: Global, bytes: &[u8]) -> Result<Vec<u8>, AllocError> {
    let mut statuses = Vec::new(alloc);
    for place in 0..bytes.len() {
        push_checked(alloc, bytes, place, &mut statuses)?;
    }
    Ok(statuses)
}

fn are_checked_so(alloc: Global, pieces: &str, lines: &str) -> Result<bool, AllocError> {
    let bytes = pieces_of(alloc, pieces)?;
    let statuses = all_checked(alloc, bytes.as_slice())?;
    Ok(statuses.len() == 357 && are_counted(statuses.as_slice(), lines))
}

#[test]
fn a_damaged_envelope_is_judged(rt: HostRuntime) -> Result<(), AllocError> {
    assert!(rt; are_checked_so(rt.alloc(), STORED, CHECKED)?);
    Ok(())
}
