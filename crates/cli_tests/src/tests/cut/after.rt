//! The flash after a second update, or a migration, that was cut off.

ghost use Rattle.std.specs.Prelude.{◌≡◌, ◌≤◌};

use crate::bytes::are_same;
use crate::session::{are_launched, status_of};
use crate::tests::cut::recorded::{MIGRATION, UPDATE};
use std::alloc::{AllocError, Global};
use suit_edge::{Disk, Host, Launcher, MemoryLauncher, MemorySink};

/// How a command ends.
#[derive(Clone, Copy)]
pub(crate) enum Ending {
    Booted,
    Installed,
    /// The layout is version 2 now, or was before.
    Migrated,
    /// The first update is recorded, or the second.
    First,
    Second,
    ConditionFailed,
    FlashFault,
    Other,
}

// The ending that this status and these lines tell.
fn ending_of(status: u8, lines: &[u8]) -> Ending {
    match status {
        0 => done_of(lines),
        6 if lines.starts_with(b"stopped at ") && lines.ends_with(b": condition failed\n") => {
            Ending::ConditionFailed
        }
        8 => Ending::FlashFault,
        22 => Ending::Migrated,
        _ => Ending::Other,
    }
}

// The ending of a command that was done, by its lines.
fn done_of(lines: &[u8]) -> Ending {
    if are_same(lines, b"ended\n") {
        Ending::Booted
    } else if are_same(lines, b"installed 2\n") {
        Ending::Installed
    } else if are_same(lines, b"migrated\n") {
        Ending::Migrated
    } else if lines.starts_with(b"sequence 1\ngeneration 1\nbank 0\n") {
        Ending::First
    } else if lines.starts_with(b"sequence 2\n") {
        Ending::Second
    } else {
        Ending::Other
    }
}

// How a command ends with this launcher.
fn ended<H: Host, D: Disk, L: Launcher>(
    alloc: Global,
    host: &mut H,
    flash: &mut D,
    launcher: &mut L,
    command: &'static str,
) -> Result<Ending, AllocError>
    requires { 49152 ≤ D.extent flash.old }
    ensures { D.extent flash.new ≡ D.extent flash.old }
{
    let mut sink = MemorySink::new(alloc, &[])?;
    let status = status_of(alloc, host, flash, launcher, command, &mut sink)?;
    Ok(ending_of(status, sink.bytes()))
}

/// How a command ends.
pub(crate) fn end_of_run<H: Host, D: Disk>(
    alloc: Global,
    command: &'static str,
    host: &mut H,
    flash: &mut D,
) -> Result<Ending, AllocError>
    requires { 49152 ≤ D.extent flash.old }
    ensures { D.extent flash.new ≡ D.extent flash.old }
{
    let mut launcher = MemoryLauncher::new(alloc, &[])?;
    ended(alloc, host, flash, &mut launcher, command)
}

// Whether a boot starts this image alone.
fn is_started(ending: Ending, launcher: &MemoryLauncher, image: &[u8]) -> bool {
    matches!(ending, Ending::Booted) && are_launched(launcher.launches(), &[image])
}

// Whether a boot is stopped at a condition and starts nothing.
fn is_stopped(ending: Ending, launcher: &MemoryLauncher) -> bool {
    matches!(ending, Ending::ConditionFailed) && launcher.launches().is_empty()
}

/// How many slots the device has.
#[derive(Clone, Copy)]
pub(crate) enum Slots {
    One,
    Two,
}

// Whether a boot starts this image, or stops if the only slot was written over.
fn boots<H: Host, D: Disk>(
    alloc: Global,
    host: &mut H,
    flash: &mut D,
    image: &[u8],
    slots: Slots,
) -> Result<bool, AllocError>
    requires { 49152 ≤ D.extent flash.old }
    ensures { D.extent flash.new ≡ D.extent flash.old }
{
    let mut launcher = MemoryLauncher::new(alloc, &[])?;
    let ending = ended(alloc, host, flash, &mut launcher, "run boot")?;
    let stops = matches!(slots, Slots::One) && is_stopped(ending, &launcher);
    Ok(stops || is_started(ending, &launcher, image))
}

fn boots_recorded<H: Host, D: Disk>(
    alloc: Global,
    host: &mut H,
    flash: &mut D,
    slots: Slots,
) -> Result<bool, AllocError>
    requires { 49152 ≤ D.extent flash.old }
    ensures { D.extent flash.new ≡ D.extent flash.old }
{
    match end_of_run(alloc, "run status", host, flash)? {
        Ending::First => boots(alloc, host, flash, b"abc", slots),
        Ending::Second => boots(alloc, host, flash, b"abd", slots),
        _ => Ok(false),
    }
}

// Whether the update can be installed now, and launches these images on the way.
fn installs<H: Host, D: Disk>(
    alloc: Global,
    host: &mut H,
    flash: &mut D,
    at_once: &[&[u8]],
) -> Result<bool, AllocError>
    requires { 49152 ≤ D.extent flash.old }
    ensures { D.extent flash.new ≡ D.extent flash.old }
{
    let mut launcher = MemoryLauncher::new(alloc, &[])?;
    let ending = ended(alloc, host, flash, &mut launcher, UPDATE)?;
    Ok(matches!(ending, Ending::Installed) && are_launched(launcher.launches(), at_once))
}

/// Whether a boot starts what is recorded, the update given again is installed and launches these images on the way, and a
/// boot then starts the new image.
pub(crate) fn goes_on<H: Host, D: Disk>(
    alloc: Global,
    host: &mut H,
    flash: &mut D,
    slots: Slots,
    at_once: &[&[u8]],
) -> Result<bool, AllocError>
    requires { 49152 ≤ D.extent flash.old }
    ensures { D.extent flash.new ≡ D.extent flash.old }
{
    Ok(
        boots_recorded(alloc, host, flash, slots)?
            && installs(alloc, host, flash, at_once)?
            && boots(alloc, host, flash, b"abd", Slots::Two)?,
    )
}

/// Whether a boot starts what is recorded, a migration is done then unless it was before, and a boot starts the same again.
pub(crate) fn stays<H: Host, D: Disk>(
    alloc: Global,
    host: &mut H,
    flash: &mut D,
) -> Result<bool, AllocError>
    requires { 49152 ≤ D.extent flash.old }
    ensures { D.extent flash.new ≡ D.extent flash.old }
{
    Ok(
        boots_recorded(alloc, host, flash, Slots::Two)?
            && matches!(end_of_run(alloc, MIGRATION, host, flash)?, Ending::Migrated)
            && boots_recorded(alloc, host, flash, Slots::Two)?,
    )
}
