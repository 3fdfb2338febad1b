//! The command `run init`: formats a blank flash.

ghost use Rattle.std.specs.Prelude.{◌≡◌, ◌≤◌, IfOk, IsTrue};
ghost use Rattle.suit_edge.specs.Flash.{IsSame, Passes};
ghost use Rattle.flash_layout.specs.Formats.{IsBlankOrFormatted};
ghost use Rattle.flash_layout.specs.Layouts.{IsKey, IsLayout};
ghost use Rattle.flash_layout.specs.Frames.{IsFrame};
ghost use Rattle.flash_layout.specs.declared.frame.TheConstants.{HEAD_SIZE};
ghost use Rattle.suit_cli.specs.Outside.{Outside, with_flash};
ghost use Rattle.suit_cli.specs.Stages.{Does, ending_of};
ghost use Rattle.suit_cli.specs.Formatting.{unused, formats, MayBe, MayFormat, MayLeave};
ghost use Rattle.suit_cli.specs.Commands.{inits_as, inits};
ghost use Rattle.suit_cli.specs.Settling.{StaysSettled};

use crate::device::{device_in, key_of};
use crate::input::{LONGEST_DEVICE, read, read_key};
use crate::outside::{SeenDisk, SeenHost};
use crate::reply::{Object, Outcome, Reply, Stop, declined};
use flash_layout::{FlashFault, Formatted, Frame, Key, Layout, format, has_open_gate};
use rollback_record::sound_laws;
use std::alloc::Global;
use suit_edge::{Disk, Host};

// The size of the flash, if it has no open gate.
fn unused<D: Disk>(alloc: Global, flash: &mut D) -> Result<u64, Stop>
    requires { HEAD_SIZE ≤ D.extent flash.old }
    ensures finds { (here : Outside) → Does unused
        (with_flash here (⟦<D as SeenDisk>⟧.seen flash.old))
        (with_flash here (⟦<D as SeenDisk>⟧.seen flash.new)) result }
    ensures extent { D.extent flash.new ≡ D.extent flash.old }
    ensures size { IfOk result (λ size. size ≡ D.extent flash.old) }
    ensures same { IsTrue D.told → IsSame (D.flash flash.old) (D.flash flash.new) }
{
    let size = flash.size();
    match has_open_gate(flash) {
        Ok(false) => Ok(size),
        Ok(true) => Err(declined(Reply::fixed(alloc, Outcome::NotBlank, "not blank\n"))),
        Err(FlashFault) => Err(Stop::Fault(Object::Flash)),
    }
}

// Formats the flash. The reply is made before the first write, so memory cannot run out later.
fn formats<D: Disk>(
    alloc: Global,
    layout: &Layout,
    frame: Frame,
    key: &Key,
    flash: &mut D,
) -> Result<Reply, Stop>
    requires frame { IsFrame (D.extent flash.old) frame }
    requires layout { IsLayout frame (D.extent flash.old) layout.now }
    requires key { IsKey key.now }
    ensures formats { (here : Outside) → formats frame layout.now key.now
        (with_flash here (⟦<D as SeenDisk>⟧.seen flash.old))
        (with_flash here (⟦<D as SeenDisk>⟧.seen flash.new)) (ending_of result) }
    ensures extent { D.extent flash.new ≡ D.extent flash.old }
    ensures any_moment { IsTrue D.told → Passes (D.flash flash.old) (D.flash flash.new)
        (MayBe (D.flash flash.old)
        (IsBlankOrFormatted frame (D.extent flash.old) layout.now key.now
        (D.flash flash.old))) }
    ensures settled { IsTrue D.told → StaysSettled (D.flash flash.old) (D.flash flash.new)
        (D.faults flash.old) (D.faults flash.new) }
{
    sound_laws();
    let ready = Reply::fixed(alloc, Outcome::Done, "ready\n")?;
    match format(flash, layout, key, frame) {
        Formatted::Done => Ok(ready),
        Formatted::NotBlank => Err(declined(Reply::fixed(alloc, Outcome::NotBlank, "not blank\n"))),
        Formatted::FlashFault => Err(Stop::Fault(Object::Flash)),
    }
}

// Reads the device's description and the key, and formats by them.
fn init_as<H: Host, D: Disk>(
    alloc: Global,
    size: u64,
    device: &str,
    key_name: &str,
    host: &mut H,
    flash: &mut D,
) -> Result<Reply, Stop>
    requires large { HEAD_SIZE ≤ D.extent flash.old }
    requires size { size ≡ D.extent flash.old }
    ensures answer { inits_as size device.now key_name.now
        (⟦<H as SeenHost>⟧.seen host.old (⟦<D as SeenDisk>⟧.seen flash.old))
        (⟦<H as SeenHost>⟧.seen host.new (⟦<D as SeenDisk>⟧.seen flash.new)) (ending_of result) }
    ensures extent { D.extent flash.new ≡ D.extent flash.old }
    ensures any_moment { IsTrue D.told → Passes (D.flash flash.old) (D.flash flash.new)
        (MayBe (D.flash flash.old) (MayFormat size device.now key_name.now
        (⟦<H as SeenHost>⟧.seen host.old (⟦<D as SeenDisk>⟧.seen flash.old)) (D.flash flash.old))) }
    ensures settled { IsTrue D.told → StaysSettled (D.flash flash.old) (D.flash flash.new)
        (D.faults flash.old) (D.faults flash.new) }
{
    let bytes = read(alloc, device, LONGEST_DEVICE, host)?;
    let (layout, frame) = device_in(alloc, size, bytes.as_slice())?;
    let key_bytes = read_key(alloc, key_name, host)?;
    let key = key_of(key_bytes.as_slice());
    formats(alloc, &layout, frame, &key, flash)
}

/// The reply to `run init DEVICE KEY`. Everything is judged before the first write.
pub(crate) fn init<H: Host, D: Disk>(
    alloc: Global,
    device: &str,
    key_name: &str,
    host: &mut H,
    flash: &mut D,
) -> Result<Reply, Stop>
    requires { HEAD_SIZE ≤ D.extent flash.old }
    ensures answer { inits device.now key_name.now
        (⟦<H as SeenHost>⟧.seen host.old (⟦<D as SeenDisk>⟧.seen flash.old))
        (⟦<H as SeenHost>⟧.seen host.new (⟦<D as SeenDisk>⟧.seen flash.new)) (ending_of result) }
    ensures extent { D.extent flash.new ≡ D.extent flash.old }
    ensures any_moment { IsTrue D.told → Passes (D.flash flash.old) (D.flash flash.new)
        (MayLeave device.now key_name.now
        (⟦<H as SeenHost>⟧.seen host.old (⟦<D as SeenDisk>⟧.seen flash.old)) (D.flash flash.old)) }
    ensures settled { IsTrue D.told → StaysSettled (D.flash flash.old) (D.flash flash.new)
        (D.faults flash.old) (D.faults flash.new) }
{
    let size = unused(alloc, flash)?;
    init_as(alloc, size, device, key_name, host, flash)
}
