//! A command over a port.

ghost use Rattle.port_c.specs.Commands.{HasRun, HasRunThere, world};
ghost use Rattle.std.specs.Prelude.{◌≡◌, ◌<◌, ◌≤◌, ◌⊎◌, ℤ, IfOk, OnErr, pos};
ghost use Rattle.suit_cli.specs.Program.{IsStatus};

use crate::words::words_of;
use flash_layout::HEAD_SIZE;
use std::alloc::{AllocError, Global};
use suit_cli::{SeenDisk, SeenHost, SeenLauncher, SeenSink, Status, run};
use suit_edge::{Disk, Host, Launcher, Sink};
use suit_port::{PortDisk, PortHost, PortLauncher, PortSink};

// Runs the command whose words are in the bytes.
fn command<H: Host, D: Disk, L: Launcher, K: Sink>(
    alloc: Global,
    bytes: &[u8],
    host: &mut H,
    flash: &mut D,
    launcher: &mut L,
    out: &mut K,
) -> Result<Status, AllocError>
    requires { HEAD_SIZE ≤ D.extent flash.old }
    ensures ran { IfOk result (λ status. HasRun bytes.now
        (world (⟦<H as SeenHost>⟧.seen host.old (⟦<D as SeenDisk>⟧.seen flash.old))
        (⟦<L as SeenLauncher>⟧.seen launcher.old) (⟦<K as SeenSink>⟧.seen out.old)
        (D.flash flash.old))
        (world (⟦<H as SeenHost>⟧.seen host.new (⟦<D as SeenDisk>⟧.seen flash.new))
        (⟦<L as SeenLauncher>⟧.seen launcher.new) (⟦<K as SeenSink>⟧.seen out.new)
        (D.flash flash.new)) status.0) }
    ensures starved { OnErr result ((host.new ≡ host.old) × (flash.new ≡ flash.old)
        × (launcher.new ≡ launcher.old) × (out.new ≡ out.old)) }
{
    let words = words_of(alloc, bytes)?;
    Ok(run(alloc, &words, host, flash, launcher, out))
}

/// Runs a command of the program `suit` over the port with this number.
///
/// `words` has the words of the command with zeros between them, such as `run`, `update` and `e.suit`, and `flash_size`
/// is the size of the flash in bytes. Returns the status of the program, or 8 if the flash has fewer than 49,152 bytes,
/// or 11 if memory runs out for the words; in these two cases no message is sent.
#[unsafe(no_mangle)]
pub extern "C" fn suit_command(alloc: Global, words: &[u8], port: i32, flash_size: u64) -> i32
    ensures small { flash_size < HEAD_SIZE → result ≡ pos 8 }
    ensures runs { HEAD_SIZE ≤ flash_size
        → HasRunThere words.now result ⊎ (result ≡ pos 11) }
{
    if flash_size < u64::from(HEAD_SIZE) {
        return 8;
    }
    let mut host = PortHost::new(port);
    let mut flash = PortDisk::new(port, flash_size);
    let mut launcher = PortLauncher::new(port);
    let mut out = PortSink::new(port);
    match command(alloc, words, &mut host, &mut flash, &mut launcher, &mut out) {
        Ok(Status(status)) => i32::from(status),
        Err(AllocError) => 11,
    }
}
