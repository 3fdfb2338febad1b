//! The second update is stopped at each call of the device, or one of these calls fails.

ghost use Rattle.std.specs.Prelude.{◌≡◌, IfOk, IfSome};

use crate::files::with_files;
use crate::tests::cut::after::{Ending, Slots, end_of_run, goes_on};
use crate::tests::cut::recorded::{ON_TWO, UPDATE, goes_unlaunched};
use nor_flash::{FuseNor, MemoryNor, NorDisk};
use std::alloc::{AllocError, Global};
use suit_edge::Host;

/// What happens at a call of the device.
#[derive(Clone, Copy)]
enum Stop {
    /// The power is lost before it.
    Cut,
    /// It fails, and the program goes on with the same disk.
    Failed,
    /// It fails, and then the power is lost.
    Torn,
}

/// How the second update ended.
#[derive(Clone, Copy)]
enum Ended {
    /// It did not begin: something before it failed.
    Before,
    /// It ended with a fault of the flash, and everything goes on after it.
    Told,
    Done,
    Wrong,
}

// A disk of 80 blocks.
fn disk_over(nor: MemoryNor, passes: u64) -> NorDisk<FuseNor>
    ensures { result.0.nor ≡ nor }
{
    NorDisk::new(FuseNor::new(nor, passes))
}

// The device after the first update, where these calls fail.
fn after_first<H: Host>(
    alloc: Global,
    host: &mut H,
    fails: &[u64],
) -> Result<Option<MemoryNor>, AllocError>
    ensures { IfOk result (λ found. IfSome found (λ nor. nor.blocks ≡ 84)) }
{
    let mut disk = disk_over(MemoryNor::new(alloc, 84, fails)?, u64::MAX);
    if goes_unlaunched(alloc, host, ON_TWO, &mut disk)? {
        Ok(Some(disk.into_nor().into_nor()))
    } else {
        Ok(None)
    }
}

// Whether everything goes on with this disk.
fn goes_on_with<H: Host>(
    alloc: Global,
    host: &mut H,
    disk: NorDisk<FuseNor>,
) -> Result<bool, AllocError>
    requires { disk.0.nor.blocks ≡ 84 }
{
    let mut disk = disk;
    goes_on(alloc, host, &mut disk, Slots::Two, &[])
}

// How a stopped update ended: everything goes on or not, with a new disk if the power was lost.
fn told_if_goes_on<H: Host>(
    alloc: Global,
    host: &mut H,
    stop: Stop,
    disk: NorDisk<FuseNor>,
) -> Result<Ended, AllocError>
    requires { disk.0.nor.blocks ≡ 84 }
{
    let goes_on = match stop {
        Stop::Failed => goes_on_with(alloc, host, disk)?,
        Stop::Cut | Stop::Torn => {
            goes_on_with(alloc, host, disk_over(disk.into_nor().into_nor(), u64::MAX))?
        }
    };
    Ok(if goes_on { Ended::Told } else { Ended::Wrong })
}

// How the second update ends on a device that takes so many calls.
fn end_on<H: Host>(
    alloc: Global,
    host: &mut H,
    nor: MemoryNor,
    stop: Stop,
    passes: u64,
) -> Result<Ended, AllocError>
    requires { nor.blocks ≡ 84 }
{
    let mut disk = disk_over(nor, passes);
    match end_of_run(alloc, UPDATE, host, &mut disk)? {
        Ending::Installed => Ok(Ended::Done),
        Ending::FlashFault => told_if_goes_on(alloc, host, stop, disk),
        _ => Ok(Ended::Wrong),
    }
}

// How it ends on a device where these calls fail, and which takes so many calls of the second update.
fn end_with<H: Host>(
    alloc: Global,
    host: &mut H,
    fails: &[u64],
    stop: Stop,
    passes: u64,
) -> Result<Ended, AllocError> {
    match after_first(alloc, host, fails)? {
        Some(nor) => end_on(alloc, host, nor, stop, passes),
        None => Ok(Ended::Before),
    }
}

// How it ends if it is stopped at this call, counted from the second update on for a cut, and from the start otherwise.
fn end_at<H: Host>(
    alloc: Global,
    host: &mut H,
    stop: Stop,
    call: u64,
) -> Result<Ended, AllocError> {
    match stop {
        Stop::Cut => end_with(alloc, host, &[], stop, call),
        Stop::Failed | Stop::Torn => end_with(alloc, host, &[call], stop, u64::MAX),
    }
}

// At how many calls the second update is stopped and everything goes on after it; 0 if it does not once.
fn stops<H: Host>(alloc: Global, host: &mut H, stop: Stop) -> Result<u64, AllocError> {
    let mut told = 0u64;
    for call in 0..100_000u64 {
        match end_at(alloc, host, stop, call)? {
            Ended::Before => {}
            Ended::Told => told = told.saturating_add(1),
            Ended::Done => return Ok(told),
            Ended::Wrong => return Ok(0),
        }
    }
    Ok(0)
}

// The same over the files of the sessions.
fn calls(alloc: Global, stop: Stop) -> Result<u64, AllocError> {
    let mut host = with_files(alloc, &[])?;
    stops(alloc, &mut host, stop)
}

#[test]
fn the_power_may_go_before_each_call(rt: HostRuntime) -> Result<(), AllocError> {
    assert!(rt; calls(rt.alloc(), Stop::Cut)? > 30);
    Ok(())
}

#[test]
fn each_call_may_fail(rt: HostRuntime) -> Result<(), AllocError> {
    assert!(rt; calls(rt.alloc(), Stop::Failed)? > 30);
    Ok(())
}

#[test]
fn each_call_may_fail_as_the_power_goes(rt: HostRuntime) -> Result<(), AllocError> {
    assert!(rt; calls(rt.alloc(), Stop::Torn)? > 30);
    Ok(())
}
