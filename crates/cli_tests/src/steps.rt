//! The steps of a session beside its commands: files, and bytes on the flash.

ghost use Rattle.std.specs.Prelude.{◌≡◌};

use crate::bytes::{are_same, changed, halves, pieces_of};
use std::alloc::{AllocError, Global};
use suit_edge::{Disk, Edge, Host, Started, Taken, take_all};

/// The longest file that a step reads, in bytes.
const LONGEST: u64 = 1_048_576;

fn stores<H: Host>(
    alloc: Global,
    host: &mut H,
    name: &str,
    pieces: &str,
) -> Result<bool, AllocError> {
    let bytes = pieces_of(alloc, pieces)?;
    Ok(host.store(name, bytes.as_slice()) == Edge::Done)
}

fn stores_changed<H: Host>(
    alloc: Global,
    host: &mut H,
    name: &str,
    bytes: &[u8],
    change: &str,
) -> Result<bool, AllocError> {
    let bytes = changed(alloc, bytes, change)?;
    Ok(host.store(name, bytes.as_slice()) == Edge::Done)
}

// Stores another file under the first of two names, after changes.
fn changes<H: Host>(
    alloc: Global,
    host: &mut H,
    names: &str,
    change: &str,
) -> Result<bool, AllocError> {
    let (name, other) = halves(names, ' ');
    match take_all(alloc, host, other, LONGEST) {
        Taken::Got(bytes) => stores_changed(alloc, host, name, bytes.as_slice(), change),
        _ => Ok(false),
    }
}

/// Whether the file of a name is taken, and has these bytes.
pub(crate) fn takes<H: Host>(
    alloc: Global,
    host: &mut H,
    name: &str,
    limit: u64,
    bytes: &[u8],
) -> bool {
    match take_all(alloc, host, name, limit) {
        Taken::Got(file) => are_same(file.as_slice(), bytes),
        _ => false,
    }
}

fn holds<H: Host>(
    alloc: Global,
    host: &mut H,
    name: &str,
    pieces: &str,
) -> Result<bool, AllocError> {
    let wanted = pieces_of(alloc, pieces)?;
    Ok(takes(alloc, host, name, LONGEST, wanted.as_slice()))
}

/// Whether a step on a file goes so; none where it is no such step.
pub(crate) fn file_goes<H: Host>(
    alloc: Global,
    host: &mut H,
    step: &str,
    name: &str,
    rest: &str,
) -> Result<Option<bool>, AllocError> {
    match step {
        "text" => Ok(Some(host.store(name, rest.as_bytes()) == Edge::Done)),
        "file" => Ok(Some(stores(alloc, host, name, rest)?)),
        "change" => Ok(Some(changes(alloc, host, name, rest)?)),
        "holds" => Ok(Some(holds(alloc, host, name, rest)?)),
        "lacks" => Ok(Some(host.start(name) == Started::Absent)),
        _ => Ok(None),
    }
}

fn writes_at<D: Disk>(flash: &mut D, place: u64, bytes: &[u8]) -> bool
    ensures { D.extent flash.new ≡ D.extent flash.old }
{
    let size = flash.size();
    if place > size || bytes.len() as u64 > size - place {
        return false;
    }
    flash.write_at(place, bytes) == Edge::Done
}

/// Writes bytes to the flash, if they are within it.
pub(crate) fn writes<D: Disk>(
    alloc: Global,
    flash: &mut D,
    place: &str,
    pieces: &str,
) -> Result<bool, AllocError>
    ensures { D.extent flash.new ≡ D.extent flash.old }
{
    let bytes = pieces_of(alloc, pieces)?;
    match place.parse::<u32>() {
        Ok(place) => Ok(writes_at(flash, place as u64, bytes.as_slice())),
        Err(_) => Ok(false),
    }
}

fn stands_at<D: Disk>(
    alloc: Global,
    flash: &mut D,
    place: u64,
    wanted: &[u8],
) -> Result<bool, AllocError>
    ensures { D.extent flash.new ≡ D.extent flash.old }
{
    let size = flash.size();
    if place > size || wanted.len() as u64 > size - place {
        return Ok(false);
    }
    let mut room = vec![in alloc; 0u8; wanted.len()]?;
    let edge = flash.read_at(place, room.as_mut_slice());
    Ok(edge == Edge::Done && are_same(room.as_slice(), wanted))
}

/// Whether the flash gives these bytes.
pub(crate) fn stands<D: Disk>(
    alloc: Global,
    flash: &mut D,
    place: &str,
    pieces: &str,
) -> Result<bool, AllocError>
    ensures { D.extent flash.new ≡ D.extent flash.old }
{
    let wanted = pieces_of(alloc, pieces)?;
    match place.parse::<u32>() {
        Ok(place) => stands_at(alloc, flash, place as u64, wanted.as_slice()),
        Err(_) => Ok(false),
    }
}
