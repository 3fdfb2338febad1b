//! A first update and its boot, where each call of each object fails in turn.

use crate::fails::{Fails, Object};
use crate::faults::fault_with;
use crate::files::{blank, with_files};
use std::alloc::{AllocError, Global};
use suit_edge::Host;

// The update matches what it fetched, and invokes it at once.
const COMMANDS: &str = "make 1-at-once.json k u.suit
check u.suit
show u.suit
show u.suit k
run init d k
run update u.suit img=abc.img
run status
run boot";

fn fault_by<H: Host>(alloc: Global, fails: &Fails<'_>, host: &mut H) -> Result<u8, AllocError> {
    let mut flash = blank(alloc, fails.flash)?;
    fault_with(alloc, COMMANDS, fails, host, &mut flash)
}

// The status of the first command that fails where these calls fail.
fn fault(alloc: Global, fails: &Fails<'_>) -> Result<u8, AllocError> {
    let mut host = with_files(alloc, fails.host)?;
    fault_by(alloc, fails, &mut host)
}

// Whether a command fails with this status at each of so many calls of an object, and at no later one.
fn each_is_told(alloc: Global, object: Object, calls: u64, status: u8) -> Result<bool, AllocError> {
    for call in 0..calls {
        if fault(alloc, &Fails::of(object, &[call]))? != status {
            return Ok(false);
        }
    }
    Ok(fault(alloc, &Fails::of(object, &[calls]))? == 0)
}

/// How many calls the commands make of each object.
const HOST_CALLS: u64 = 34;

const FLASH_CALLS: u64 = 48;

const LAUNCHES: u64 = 2;

const LINES: u64 = 8;

#[test]
fn each_call_may_fail(rt: HostRuntime) -> Result<(), AllocError> {
    assert!(rt; each_is_told(rt.alloc(), Object::Host, HOST_CALLS, 7)?);
    assert!(rt; each_is_told(rt.alloc(), Object::Flash, FLASH_CALLS, 8)?);
    assert!(rt; each_is_told(rt.alloc(), Object::Launcher, LAUNCHES, 10)?);
    assert!(rt; each_is_told(rt.alloc(), Object::Sink, LINES, 9)?);
    Ok(())
}
