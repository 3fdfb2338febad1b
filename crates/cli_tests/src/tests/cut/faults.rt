//! A call of the host, the flash, the launcher or the sink fails in the second update.

ghost use Rattle.std.specs.Prelude.{◌≤◌};

use crate::fails::{Fails, Object};
use crate::faults::fault_with;
use crate::files::{blank, with_files};
use crate::tests::cut::after::{Slots, goes_on};
use crate::tests::cut::recorded::{AT_ONCE, UPDATE, goes_unlaunched};
use std::alloc::{AllocError, Global};
use suit_edge::{Disk, Host};

/// How the second update ended.
#[derive(Clone, Copy)]
enum Ended {
    /// It did not begin: something before it failed.
    Before,
    /// It ended with this status, and everything goes on after it.
    Told(u8),
    Done,
    Wrong,
}

// How the second update ends where these calls of the launcher and the sink fail.
fn update_ended<H: Host, D: Disk>(
    alloc: Global,
    host: &mut H,
    flash: &mut D,
    fails: &Fails<'_>,
) -> Result<Ended, AllocError>
    requires { 49152 ≤ D.extent flash.old }
{
    if !goes_unlaunched(alloc, host, AT_ONCE, flash)? {
        return Ok(Ended::Before);
    }
    let status = fault_with(alloc, UPDATE, fails, host, flash)?;
    if status == 0 {
        return Ok(Ended::Done);
    }
    if goes_on(alloc, host, flash, Slots::Two, &[b"abd"])? {
        Ok(Ended::Told(status))
    } else {
        Ok(Ended::Wrong)
    }
}

// How it ends where these calls fail.
fn update_end(alloc: Global, fails: &Fails<'_>) -> Result<Ended, AllocError> {
    let mut host = with_files(alloc, fails.host)?;
    end_by(alloc, fails, &mut host)
}

fn end_by<H: Host>(alloc: Global, fails: &Fails<'_>, host: &mut H) -> Result<Ended, AllocError> {
    let mut flash = blank(alloc, fails.flash)?;
    update_ended(alloc, host, &mut flash, fails)
}

// At how many calls of the object the second update can fail, each time with this status, and everything goes on after it; 0 if
// it does not once.
fn faults(alloc: Global, object: Object, status: u8) -> Result<u64, AllocError> {
    let mut told = 0u64;
    for call in 0..1_000u64 {
        match update_end(alloc, &Fails::of(object, &[call]))? {
            Ended::Before => {}
            Ended::Told(found) if found == status => told = told.saturating_add(1),
            Ended::Done => return Ok(told),
            _ => return Ok(0),
        }
    }
    Ok(0)
}

// Whether the update fails with this status at its first call of the object, and makes no second call.
fn fails_once(alloc: Global, object: Object, status: u8) -> Result<bool, AllocError> {
    let first = update_end(alloc, &Fails::of(object, &[0]))?;
    let second = update_end(alloc, &Fails::of(object, &[1]))?;
    Ok(matches!(first, Ended::Told(found) if found == status) && matches!(second, Ended::Done))
}

// The update pulls two files, each with one piece and the end of the file.
#[test]
fn each_call_may_fail(rt: HostRuntime) -> Result<(), AllocError> {
    let alloc = rt.alloc();
    assert!(rt; faults(alloc, Object::Host, 7)? == 6);
    assert!(rt; faults(alloc, Object::Flash, 8)? > 20);
    assert!(rt; fails_once(alloc, Object::Launcher, 10)?);
    assert!(rt; fails_once(alloc, Object::Sink, 9)?);
    Ok(())
}
