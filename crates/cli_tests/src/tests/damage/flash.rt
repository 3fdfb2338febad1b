//! The flash after a first update, with one damaged byte. Each run has a flash of its own.

ghost use Rattle.std.specs.Prelude.{◌≡◌, ◌<◌, ◌≤◌, length};

use crate::bytes::halves;
use crate::files::{blank, with_files};
use crate::session::{are_launched, status_of};
use crate::tests::cut::recorded::{ON_TWO, goes_unlaunched};
use crate::tests::damage::counts::{CHANGES, are_counted};
use std::alloc::{AllocError, Global};
use suit_edge::{Disk, Edge, Host, Launcher, MemoryDisk, MemoryLauncher, MemorySink};

/// How many bytes are damaged from a place on.
const FRONT: u64 = 128;

/// The last byte from which on bytes are damaged.
const LAST: u64 = 16_384;

/// A place and a command; then a status in each line, and how many of the runs end with it.
const CONFIGURATION: &str = "0 run boot
4 15
13 366
18 3

0 run status
0 18
13 366";

const RECORD: &str = "4096 run boot
0 231
3 5
6 1
15 147

4096 run status
0 237
15 147";

const CLOSED_RECORD: &str = "8192 run boot
0 384

8192 run status
0 384";

const BANK: &str = "12288 run boot
3 131
4 253

12288 run status
0 384";

/// Stands for the status of a run that launched the wrong images.
const OTHER_LAUNCHES: u8 = 255;

fn damage<D: Disk>(flash: &mut D, place: u64, change: u8) -> bool
    requires { place < D.extent flash.old }
    ensures { D.extent flash.new ≡ D.extent flash.old }
{
    let mut byte = [0u8];
    flash.read_at(place, &mut byte) == Edge::Done
        && flash.write_at(place, &[byte[0] ^ change]) == Edge::Done
}

fn status_with<H: Host, D: Disk, L: Launcher>(
    alloc: Global,
    host: &mut H,
    flash: &mut D,
    launcher: &mut L,
    command: &str,
) -> Result<u8, AllocError>
    requires { 49152 ≤ D.extent flash.old }
{
    let mut sink = MemorySink::new(alloc, &[])?;
    status_of(alloc, host, flash, launcher, command, &mut sink)
}

// The status of a command, if it launched what it should: the recorded image in a boot that is done, and nothing otherwise.
fn launching_status(launcher: &MemoryLauncher, command: &str, status: u8) -> u8 {
    let launches = launcher.launches();
    let is_right = if command == "run boot" && status == 0 {
        are_launched(launches, &[b"abc"])
    } else {
        launches.is_empty()
    };
    if is_right { status } else { OTHER_LAUNCHES }
}

fn status_of_run<H: Host, D: Disk>(
    alloc: Global,
    host: &mut H,
    flash: &mut D,
    command: &str,
) -> Result<u8, AllocError>
    requires { 49152 ≤ D.extent flash.old }
{
    let mut launcher = MemoryLauncher::new(alloc, &[])?;
    let status = status_with(alloc, host, flash, &mut launcher, command)?;
    Ok(launching_status(&launcher, command, status))
}

fn damaged_status<H: Host>(
    alloc: Global,
    host: &mut H,
    first: &MemoryDisk,
    command: &str,
    place: u64,
    change: u8,
) -> Result<u8, AllocError>
    requires size { 49152 ≤ length first.now.first }
    requires place { place < 49152 }
{
    let mut flash = first.after_loss(alloc, 0)?;
    if !damage(&mut flash, place, change) {
        return Err(AllocError);
    }
    status_of_run(alloc, host, &mut flash, command)
}

fn push_damaged<H: Host>(
    alloc: Global,
    host: &mut H,
    first: &MemoryDisk,
    command: &str,
    place: u64,
    statuses: &mut Vec<u8>,
) -> Result<(), AllocError>
    requires size { 49152 ≤ length first.now.first }
    requires place { place < 49152 }
{
    for change in &CHANGES {
        statuses.push(damaged_status(alloc, host, first, command, place, *change)?)?;
    }
    Ok(())
}

// The statuses of a command with each byte from a place on damaged.
fn damaged_statuses<H: Host>(
    alloc: Global,
    host: &mut H,
    first: &MemoryDisk,
    command: &str,
    begin: u64,
) -> Result<Vec<u8>, AllocError>
    requires size { 49152 ≤ length first.now.first }
    requires begin { begin ≤ LAST }
{
    let mut statuses = Vec::new(alloc);
    for offset in 0..FRONT {
        push_damaged(alloc, host, first, command, begin + offset, &mut statuses)?;
    }
    Ok(statuses)
}

fn ends_from<H: Host>(
    alloc: Global,
    host: &mut H,
    first: &MemoryDisk,
    command: &str,
    begin: u64,
    lines: &str,
) -> Result<bool, AllocError>
    requires size { 49152 ≤ length first.now.first }
    requires begin { begin ≤ LAST }
{
    let statuses = damaged_statuses(alloc, host, first, command, begin)?;
    Ok(are_counted(statuses.as_slice(), lines))
}

// Whether a command ends as this table says: its first line has the place and the command, and each other line a status.
fn ends_so<H: Host>(
    alloc: Global,
    host: &mut H,
    first: &MemoryDisk,
    table: &str,
) -> Result<bool, AllocError>
    requires { 49152 ≤ length first.now.first }
{
    let (asked, lines) = halves(table, '\n');
    let (place, command) = halves(asked, ' ');
    match place.parse::<u32>() {
        Ok(begin) if begin as u64 <= LAST => {
            ends_from(alloc, host, first, command, begin as u64, lines)
        }
        _ => Ok(false),
    }
}

fn all_end_so<H: Host>(
    alloc: Global,
    host: &mut H,
    first: &MemoryDisk,
    tables: &str,
) -> Result<bool, AllocError>
    requires { 49152 ≤ length first.now.first }
{
    for table in tables.split("\n\n") {
        if !ends_so(alloc, host, first, table)? {
            return Ok(false);
        }
    }
    Ok(true)
}

fn end_so_after_first<H: Host>(
    alloc: Global,
    host: &mut H,
    tables: &str,
) -> Result<bool, AllocError> {
    let mut first = blank(alloc, &[])?;
    Ok(
        goes_unlaunched(alloc, host, ON_TWO, &mut first)?
            && all_end_so(alloc, host, &first, tables)?,
    )
}

fn end_so(alloc: Global, tables: &str) -> Result<bool, AllocError> {
    let mut host = with_files(alloc, &[])?;
    end_so_after_first(alloc, &mut host, tables)
}

#[test]
fn a_damaged_configuration_is_judged(rt: HostRuntime) -> Result<(), AllocError> {
    assert!(rt; end_so(rt.alloc(), CONFIGURATION)?);
    Ok(())
}

#[test]
fn a_damaged_record_is_judged(rt: HostRuntime) -> Result<(), AllocError> {
    assert!(rt; end_so(rt.alloc(), RECORD)?);
    Ok(())
}

#[test]
fn a_record_page_that_does_not_count_may_be_damaged(rt: HostRuntime) -> Result<(), AllocError> {
    assert!(rt; end_so(rt.alloc(), CLOSED_RECORD)?);
    Ok(())
}

#[test]
fn a_damaged_bank_is_judged(rt: HostRuntime) -> Result<(), AllocError> {
    assert!(rt; end_so(rt.alloc(), BANK)?);
    Ok(())
}
