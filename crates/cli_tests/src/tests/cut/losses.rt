//! The power goes at each call of the flash.

ghost use Rattle.std.specs.Prelude.{◌≡◌, ◌≤◌, length};

use crate::files::{blank, blank_large, with_files};
use crate::tests::cut::after::{Ending, Slots, end_of_run, goes_on, stays};
use crate::tests::cut::recorded::{MIGRATION, ON_ONE, ON_TWO, Sessions, UPDATE, goes_unlaunched};
use std::alloc::{AllocError, Global};
use suit_edge::{Disk, FuseDisk, Host, MemoryDisk};

/// Which writes since the last sync a power loss keeps: none, all, and every other one.
const CHOICES: [u64; 3] = [0, u64::MAX, 0xAAAA_AAAA_AAAA_AAAA];

/// What the power loss interrupts after the first update: a second one on a device with one slot or two, or a migration.
#[derive(Clone, Copy)]
enum Cut {
    UpdateOfOne,
    UpdateOfTwo,
    Migration,
}

impl Cut {
    fn before(self) -> Sessions {
        match self {
            Cut::UpdateOfOne => ON_ONE,
            Cut::UpdateOfTwo | Cut::Migration => ON_TWO,
        }
    }

    fn command(self) -> &'static str {
        match self {
            Cut::UpdateOfOne | Cut::UpdateOfTwo => UPDATE,
            Cut::Migration => MIGRATION,
        }
    }
}

// Whether everything goes on as it should.
fn all_goes_on<H: Host, D: Disk>(
    alloc: Global,
    host: &mut H,
    flash: &mut D,
    cut: Cut,
) -> Result<bool, AllocError>
    requires { 49152 ≤ D.extent flash.old }
{
    match cut {
        Cut::UpdateOfOne => goes_on(alloc, host, flash, Slots::One, &[]),
        Cut::UpdateOfTwo => goes_on(alloc, host, flash, Slots::Two, &[]),
        Cut::Migration => stays(alloc, host, flash),
    }
}

// Whether it does after a power loss with this choice.
fn survives<H: Host>(
    alloc: Global,
    host: &mut H,
    left: &MemoryDisk,
    choice: u64,
    cut: Cut,
) -> Result<bool, AllocError>
    requires { 49152 ≤ length left.now.first }
{
    let mut flash = left.after_loss(alloc, choice)?;
    all_goes_on(alloc, host, &mut flash, cut)
}

// Whether it does after each choice.
fn survives_each<H: Host>(
    alloc: Global,
    host: &mut H,
    left: &MemoryDisk,
    cut: Cut,
) -> Result<bool, AllocError>
    requires { 49152 ≤ length left.now.first }
{
    for choice in &CHOICES {
        if !survives(alloc, host, left, *choice, cut)? {
            return Ok(false);
        }
    }
    Ok(true)
}

// How the command ends on this flash, if everything goes on after each loss.
fn ending_on<H: Host>(
    alloc: Global,
    host: &mut H,
    fuse: FuseDisk,
    cut: Cut,
) -> Result<Option<Ending>, AllocError>
    requires { 49152 ≤ length fuse.disk.first }
{
    let mut fuse = fuse;
    let ending = end_of_run(alloc, cut.command(), host, &mut fuse)?;
    let left = fuse.into_disk();
    if survives_each(alloc, host, &left, cut)? {
        Ok(Some(ending))
    } else {
        Ok(None)
    }
}

// After how many calls of the flash the command is done, if each earlier cut is told as a fault and survived; otherwise 0.
fn calls_survived<H: Host>(
    alloc: Global,
    first: &MemoryDisk,
    host: &mut H,
    cut: Cut,
) -> Result<u64, AllocError>
    requires { 49152 ≤ length first.now.first }
{
    for passes in 0..1_000u64 {
        let fuse = FuseDisk::new(first.after_loss(alloc, 0)?, passes);
        match ending_on(alloc, host, fuse, cut)? {
            Some(Ending::Installed | Ending::Migrated) => return Ok(passes),
            Some(Ending::FlashFault) => {}
            _ => return Ok(0),
        }
    }
    Ok(0)
}

fn calls_from<H: Host>(
    alloc: Global,
    host: &mut H,
    blank: MemoryDisk,
    cut: Cut,
) -> Result<u64, AllocError>
    requires { 49152 ≤ length blank.first }
{
    let mut first = blank;
    if goes_unlaunched(alloc, host, cut.before(), &mut first)? {
        calls_survived(alloc, &first, host, cut)
    } else {
        Ok(0)
    }
}

fn calls_with<H: Host>(alloc: Global, host: &mut H, cut: Cut) -> Result<u64, AllocError> {
    match cut {
        Cut::Migration => calls_from(alloc, host, blank_large(alloc)?, cut),
        Cut::UpdateOfOne | Cut::UpdateOfTwo => calls_from(alloc, host, blank(alloc, &[])?, cut),
    }
}

// How many calls of the flash the command makes, if a cut at each is survived; otherwise 0.
fn calls(alloc: Global, cut: Cut) -> Result<u64, AllocError> {
    let mut host = with_files(alloc, &[])?;
    calls_with(alloc, &mut host, cut)
}

#[test]
fn a_cut_leaves_one_of_two_slots_to_start(rt: HostRuntime) -> Result<(), AllocError> {
    assert!(rt; calls(rt.alloc(), Cut::UpdateOfTwo)? > 15);
    Ok(())
}

#[test]
fn a_cut_over_one_slot_starts_nothing_else(rt: HostRuntime) -> Result<(), AllocError> {
    assert!(rt; calls(rt.alloc(), Cut::UpdateOfOne)? > 15);
    Ok(())
}

#[test]
fn a_cut_migration_leaves_what_is_installed(rt: HostRuntime) -> Result<(), AllocError> {
    assert!(rt; calls(rt.alloc(), Cut::Migration)? > 15);
    Ok(())
}
