//! Sessions on the files and a blank flash.

use crate::fails::{Fails, Object};
use crate::files::{blank, blank_large, with_files};
use crate::session::{BEGUN, are_launched, goes_after};
use std::alloc::{AllocError, Global};
use suit_edge::{Host, Launcher, MemoryLauncher};

// Whether two sessions pass one after the other on a blank flash, where these calls of the flash fail.
fn goes_on_blank<H: Host, L: Launcher>(
    alloc: Global,
    sessions: (&str, &str),
    fails: &[u64],
    host: &mut H,
    launcher: &mut L,
) -> Result<bool, AllocError> {
    let mut flash = blank(alloc, fails)?;
    goes_after(alloc, host, &mut flash, launcher, sessions)
}

// The same with the files, where these calls fail.
fn goes_with_files<L: Launcher>(
    alloc: Global,
    sessions: (&str, &str),
    fails: Fails<'_>,
    launcher: &mut L,
) -> Result<bool, AllocError> {
    let mut host = with_files(alloc, fails.host)?;
    goes_on_blank(alloc, sessions, fails.flash, &mut host, launcher)
}

/// Whether two sessions pass on a blank flash and launch these images, where these calls of host, flash and launcher fail.
pub(crate) fn both_launch(
    alloc: Global,
    sessions: (&str, &str),
    fails: Fails<'_>,
    images: &[&[u8]],
) -> Result<bool, AllocError> {
    let mut launcher = MemoryLauncher::new(alloc, fails.launcher)?;
    let goes = goes_with_files(alloc, sessions, fails, &mut launcher)?;
    Ok(goes && are_launched(launcher.launches(), images))
}

/// The same where no call fails and nothing is launched.
pub(crate) fn both_go(alloc: Global, sessions: (&str, &str)) -> Result<bool, AllocError> {
    both_launch(alloc, sessions, Fails::of(Object::Host, &[]), &[])
}

/// The same for one session after `BEGUN`.
pub(crate) fn launches_past(
    alloc: Global,
    session: &str,
    fails: Fails<'_>,
    images: &[&[u8]],
) -> Result<bool, AllocError> {
    both_launch(alloc, (BEGUN, session), fails, images)
}

/// The same where no call fails.
pub(crate) fn launches(alloc: Global, session: &str, images: &[&[u8]]) -> Result<bool, AllocError> {
    launches_past(alloc, session, Fails::of(Object::Host, &[]), images)
}

fn goes_on_large<H: Host, L: Launcher>(
    alloc: Global,
    sessions: (&str, &str),
    host: &mut H,
    launcher: &mut L,
) -> Result<bool, AllocError> {
    let mut flash = blank_large(alloc)?;
    goes_after(alloc, host, &mut flash, launcher, sessions)
}

fn goes_on_large_with_files<L: Launcher>(
    alloc: Global,
    sessions: (&str, &str),
    launcher: &mut L,
) -> Result<bool, AllocError> {
    let mut host = with_files(alloc, &[])?;
    goes_on_large(alloc, sessions, &mut host, launcher)
}

/// Whether two sessions pass on a blank flash with room for layout version 2, and launch these images.
pub(crate) fn both_launch_on_large(
    alloc: Global,
    sessions: (&str, &str),
    images: &[&[u8]],
) -> Result<bool, AllocError> {
    let mut launcher = MemoryLauncher::new(alloc, &[])?;
    let goes = goes_on_large_with_files(alloc, sessions, &mut launcher)?;
    Ok(goes && are_launched(launcher.launches(), images))
}
