//! The first of some commands to fail where calls of the objects fail.

ghost use Rattle.std.specs.Prelude.{◌≡◌, ◌≤◌};

use crate::fails::Fails;
use crate::session::status_of;
use std::alloc::{AllocError, Global};
use suit_edge::{Disk, Host, Launcher, MemoryLauncher, MemorySink, Sink};

// The status of the first command that fails, or 0.
fn first_fault<H: Host, D: Disk, L: Launcher, K: Sink>(
    alloc: Global,
    host: &mut H,
    flash: &mut D,
    commands: &str,
    launcher: &mut L,
    sink: &mut K,
) -> Result<u8, AllocError>
    requires { 49152 ≤ D.extent flash.old }
    ensures { D.extent flash.new ≡ D.extent flash.old }
{
    for command in commands.split('\n') {
        let status = status_of(alloc, host, flash, launcher, command, sink)?;
        if status != 0 {
            return Ok(status);
        }
    }
    Ok(0)
}

fn fault_with_launcher<H: Host, D: Disk, L: Launcher>(
    alloc: Global,
    commands: &str,
    host: &mut H,
    sink_fails: &[u64],
    flash: &mut D,
    launcher: &mut L,
) -> Result<u8, AllocError>
    requires { 49152 ≤ D.extent flash.old }
    ensures { D.extent flash.new ≡ D.extent flash.old }
{
    let mut sink = MemorySink::new(alloc, sink_fails)?;
    first_fault(alloc, host, flash, commands, launcher, &mut sink)
}

/// The status of the first of these commands that fails, or 0, where these calls of the launcher and the sink fail.
pub(crate) fn fault_with<H: Host, D: Disk>(
    alloc: Global,
    commands: &str,
    fails: &Fails<'_>,
    host: &mut H,
    flash: &mut D,
) -> Result<u8, AllocError>
    requires { 49152 ≤ D.extent flash.old }
    ensures { D.extent flash.new ≡ D.extent flash.old }
{
    let mut launcher = MemoryLauncher::new(alloc, fails.launcher)?;
    fault_with_launcher(alloc, commands, host, fails.sink, flash, &mut launcher)
}
